use ms_base::seq::Seq;
use ms_lits::{Ending, Lit, Note, Trail};
use std::test::Fail;

#[test]
fn levels(rt: HostRuntime) -> Result<(), Fail> {
    let first = Lit {
        var: 2,
        truth: false,
    };
    let second = Lit {
        var: 0,
        truth: true,
    };
    let mut trail = Trail::new(rt.alloc());
    trail.grow(3)?;
    assert_eq!(rt; trail.room(), 3);
    trail.assign(first, None);
    trail.push_level();
    trail.assign(second, Some(7));
    assert_eq!(rt; trail.len(), 2);
    assert_eq!(rt; trail.at(1), second);
    assert_eq!(rt; trail.entry(0).lit, first);
    assert_eq!(rt; trail.value(0), Some(true));
    assert_eq!(rt; trail.value(1), None);
    assert_eq!(rt; trail.value(2), Some(false));
    assert_eq!(rt; trail.level_of(0), 1);
    assert_eq!(rt; trail.reason(0), Some(7));
    assert_eq!(rt; trail.place_of(0), 1);
    trail.back_to(0);
    assert_eq!(rt; trail.level(), 0);
    assert_eq!(rt; trail.value(0), None);
    assert_eq!(rt; trail.value(2), Some(false));
    trail.clear();
    assert_eq!(rt; trail.len(), 0);
    assert_eq!(rt; trail.value(2), None);
    Ok(())
}

#[test]
fn notes(rt: HostRuntime) -> Result<(), Fail> {
    let opposite = Lit {
        var: 4,
        truth: true,
    }
    .opposite();
    assert!(rt; !opposite.truth && opposite.var == 4);
    let kept = Note::Kept(Seq::from_vec(vec![in rt.alloc(); opposite]?));
    assert!(rt; kept != Note::Kept(Seq::new(rt.alloc())));
    assert!(rt; Ending::Cut != Ending::Complete);
    Ok(())
}
