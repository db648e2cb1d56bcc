use ms_term::{Terms, compare_lists, in_term_order};
use std::cmp::Ordering;
use std::test::Fail;

#[test]
fn terms_in_order(rt: HostRuntime) -> Result<(), Fail> {
    let alloc = rt.alloc();
    let mut terms = Terms::new(alloc);
    let text = terms.text(b"a")?;
    let two = terms.number(2)?;
    let one = terms.number(1)?;
    let sorted = in_term_order(&terms, vec![in alloc; text, two, one, two]?);
    assert_eq!(rt;
        sorted.as_slice(),
        [one, two, text].as_slice(),
        "numbers and a string"
    );
    assert_eq!(rt;
        compare_lists(&terms, &[one], &[one, two]),
        Ordering::Less,
        "a list and a longer one"
    );
    Ok(())
}
