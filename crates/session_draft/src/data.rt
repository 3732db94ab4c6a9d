//! Looking into a JSON value: whole numbers, lists, and objects with given keys.

ghost use Rattle.std.specs.Prelude.{◌≡◌, map, option_map};
ghost use Rattle.serde_json.specs.View.{view, members_view};
ghost use Rattle.session_draft.specs.Json.{integer_of, number_to, list_of};

use serde_json::Value;
use std::alloc::{AllocError, AllocFailed};

/// Why a part of a text isn't read.
#[derive(Clone, Copy, Debug, PartialEq, Eq)]
pub(crate) enum Misread {
    /// It isn't as the grammar says.
    Misfit,
    NoMemory,
}

impl From<AllocError> for Misread {
    ghost use Rattle.session_draft.specs.declared.data.Misread.TheVariants.{NoMemory};
    ghost use Rattle.std.specs.Prelude.{◌≡◌};

    ghost from_gives = { λ _ e. e ≡ NoMemory };

    fn from(_error: AllocError) -> Misread {
        Misread::NoMemory
    }
}

impl<T: Drop> From<AllocFailed<T>> for Misread {
    ghost use Rattle.session_draft.specs.declared.data.Misread.TheVariants.{NoMemory};
    ghost use Rattle.std.specs.Prelude.{◌≡◌};

    ghost from_gives = { λ _ e. e ≡ NoMemory };

    fn from(_error: AllocFailed<T>) -> Misread {
        Misread::NoMemory
    }
}

/// A whole number from 0 to 255.
pub(crate) fn as_u8(value: &Value) -> Option<u8>
    ensures { result ≡ number_to 255 (view value.now) }
{
    u8::try_from(value.as_i64()?).ok()
}

/// A whole number from 0 to 65,535.
pub(crate) fn as_u16(value: &Value) -> Option<u16>
    ensures { result ≡ number_to 65535 (view value.now) }
{
    u16::try_from(value.as_i64()?).ok()
}

/// A whole number from 0 to 4,294,967,295.
pub(crate) fn as_u32(value: &Value) -> Option<u32>
    ensures { result ≡ number_to 4294967295 (view value.now) }
{
    u32::try_from(value.as_i64()?).ok()
}

/// A whole number from -2^63 to 2^63 - 1.
pub(crate) fn as_i64(value: &Value) -> Option<i64>
    ensures { result ≡ integer_of (view value.now) }
{
    value.as_i64()
}

/// The items of a list.
pub(crate) fn as_list(value: &Value) -> Option<&[Value]>
    ensures { option_map (λ items. map view items.now) result ≡ list_of (view value.now) }
{
    Some(value.as_array()?.as_slice())
}
