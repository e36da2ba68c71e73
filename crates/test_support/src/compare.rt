//! Comparing values, texts and bytes with the expected ones.

ghost use Rattle.std.specs.Prelude.{◌≡◌, OnOk, true};

use std::fmt::Debug;
use std::test::Fail;

/// Fails unless a value is the expected one.
pub fn equal<T: PartialEq + Debug>(found: &T, wanted: &T) -> Result<(), Fail>
    ensures { OnOk result (T.eq found.now wanted.now ≡ true) }
{
    if found == wanted {
        Ok(())
    } else {
        Err(Fail::new(format_args!("{found:?}, not {wanted:?}")))
    }
}

/// Fails unless a text is the expected one.
pub fn agree(found: &str, wanted: &str) -> Result<(), Fail>
    ensures { OnOk result (found.now ≡ wanted.now) }
{
    if found == wanted {
        Ok(())
    } else {
        Err(Fail::new(format_args!("{found:?}, not {wanted:?}")))
    }
}

/// Fails unless bytes are the expected ones. The failure names the offset of the first difference.
pub fn same(bytes: &[u8], wanted: &[u8]) -> Result<(), Fail>
    ensures { OnOk result (bytes.now ≡ wanted.now) }
{
    if bytes == wanted {
        return Ok(());
    }
    let pairs = bytes.iter().zip(wanted);
    let equal = pairs.take_while(|(byte, wanted)| byte == wanted).count();
    Err(Fail::new(format_args!("another byte at {equal}")))
}
