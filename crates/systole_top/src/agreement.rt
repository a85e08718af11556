ghost use Rattle.std.specs.Prelude.{◌≡◌, ℕ, Bool, List};
ghost use Rattle.run_words.specs.Schedules.{Schedule};
ghost use Rattle.systole_top.specs.Correctness.{IsRunPut};
ghost use Rattle.systole_top.specs.Sides.{Stream};

use accept::{images_do_as_they_say, one_image};
use stream_io::one_input;

/// A law: whatever the schedules and the capacities of two runs that are put for one text and one input, their outputs
/// are the same.
pub fn runs_put_the_same_outputs()
    ensures { (text bytes : List ℕ) (asked other : ℕ) (schedule another : Schedule) (recorded too : Bool)
        (out err out_too err_too : Stream) (x : IsRunPut text bytes asked schedule recorded out err)
        (y : IsRunPut text bytes other another too out_too err_too) →
        x.report.outputs.cells ≡ y.report.outputs.cells }
{
    one_image();
    one_input();
    images_do_as_they_say();
}
