//! Numbers in decimal at the end of a text, each behind the fixed text that leads to it.

ghost use Rattle.std.specs.Prelude.{◌≡◌, ◌++◌, OnOk, string_bytes};
ghost use Rattle.serde_json.specs.Written.{compact_text};
ghost use Rattle.session_text.specs.SessionData.{natural, integer};

use itoa::Buffer;
use std::alloc::AllocError;

/// Appends the lead, and a number from 0.
pub(crate) fn push_natural(text: &mut String, lead: &str, n: u64) -> Result<(), AllocError>
    ensures { OnOk result (string_bytes text.new
        ≡ string_bytes text.old ++ (lead.now ++ compact_text (natural n))) }
{
    text.push_str(lead)?;
    text.push_str(Buffer::new().format(n))
}

/// Appends the lead, and a number that may be negative.
pub(crate) fn push_integer(text: &mut String, lead: &str, z: i64) -> Result<(), AllocError>
    ensures { OnOk result (string_bytes text.new
        ≡ string_bytes text.old ++ (lead.now ++ compact_text (integer z))) }
{
    text.push_str(lead)?;
    text.push_str(Buffer::new().format(z))
}
