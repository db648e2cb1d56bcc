// Values of names.
ghost use Rattle.std.specs.Prelude.{◌≡◌};
ghost use Rattle.std.specs.Option.{option_copied};
ghost use Rattle.ms_core.specs.Texts.{value_in};

use ms_base::seq::Bytes;
use ms_grammar::value::Value;

/// The value of a name in a list of names with values.
pub(crate) fn value_in<'a>(values: &'a [(Bytes, Value)], name: &[u8]) -> Option<&'a Value>
    ensures { option_copied result ≡ value_in values.now name.now }
{
    for pair in values {
        if pair.0.as_slice() == name {
            return Some(&pair.1);
        }
    }
    None
}
