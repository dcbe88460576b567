//! The line that says why a job did not end with its whole output, and the status.

ghost use Rattle.std.specs.Prelude.{◌≡◌};
ghost use Rattle.lid_top_refusals.specs.Saying.{Says};
ghost use Rattle.lid_top_script.specs.Causes.{stop_status, stop_line, end_status, end_line};

use lid_base::Sink;
use lid_top_refusals::{say_denied, say_memory, say_read, say_refusal, say_write};
use lid_top_script::{JobEnd, Stop};

/// Says why there is no output, and answers the status.
fn say_stop<E: Sink>(err: &mut E, stop: &Stop<'_>) -> u8
    ensures status { result ≡ stop_status stop.now }
    ensures says { Says E.written E.pieces E.faults err.old err.new (stop_line stop.now) }
{
    match stop {
        Stop::Refused(refusal) => {
            say_refusal(err, refusal);
            1
        }
        Stop::Read(file) => {
            say_read(err, file);
            3
        }
        Stop::Memory => {
            say_memory(err);
            5
        }
        Stop::Denied => {
            say_denied(err);
            6
        }
    }
}

/// Says why the output is not whole, and answers the status.
pub fn say_end<E: Sink>(err: &mut E, end: &JobEnd<'_>) -> u8
    ensures status { result ≡ end_status end.now }
    ensures says { Says E.written E.pieces E.faults err.old err.new (end_line end.now) }
{
    match end {
        JobEnd::Stopped(stop) => say_stop(err, stop),
        JobEnd::Unwritten => {
            say_write(err);
            4
        }
    }
}
