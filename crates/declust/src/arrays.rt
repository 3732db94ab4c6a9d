//! The register arrays of a switch by number.

ghost use Rattle.std.specs.Prelude.{◌≡◌, ◌<◌, ◌≤◌, ◌*◌};
ghost use Rattle.stage_layout.specs.Shape.{IsShape};
ghost use Rattle.declust.specs.Arrays.{array_count, place_in};

use stage_layout::Shape;
use txn_model::Place;

/// How many register arrays the switch has.
pub(crate) fn array_count(shape: &Shape) -> u8
    requires { IsShape shape.now }
    ensures value { result ≡ array_count shape.now }
    ensures bound { result ≤ 48 }
{
    shape.stages * shape.arrays
}

/// The place of this cell of an array.
pub(crate) fn place_in(shape: &Shape, array: u8, cell: u16) -> Place
    requires { IsShape shape.now }
    ensures { result ≡ place_in shape.now array cell }
{
    Place {
        stage: array / shape.arrays,
        array: array % shape.arrays,
        cell,
    }
}
