// Every public call on framed cases: reads frames from standard input until its end and writes one line for each. docs/TRIALS.md has the frames and the
// lines.
#![tactic(auto)]

mod calls;
mod frames;

use crate::frames::frame;
use console::say;
use trial_frames::headers::FrameError;

// "T at most 70,000, R and a record's room at most 400,000"
const TEXT: usize = 70_000;

const RECORD: usize = 400_000;

fn main(rt: HostRuntime) {
    let mut text = [0; TEXT];
    let mut record = [0; RECORD];
    if let FrameError::Bad = frame_by_frame(&rt, &mut text, &mut record) {
        say(&rt.stdout(), b"bad frame\n");
    }
}

// Why the last frame was none.
fn frame_by_frame(rt: &HostRuntime, text: &mut [u8], record: &mut [u8]) -> FrameError {
    let mut lent = None;
    // A proved loop ends, and nothing says that an input does: no run uses these turns up.
    for _ in 0..u64::MAX {
        match frame(rt, text, record, lent) {
            Ok(next) => lent = next,
            Err(error) => return error,
        }
    }
    FrameError::Over
}
