// A frame: its header, its payload, the line end behind it, and the line that answers it.
use crate::calls::answer;
use console::{read_in, say};
use std::io::Read;
use trial_frames::headers::{Call, FrameError, read_header};
use trial_frames::lending::Lend;

// What a `lend` leaves to the next frame. The buffers are as long as a text and a record may be.
pub fn frame(
    rt: &HostRuntime,
    text: &mut [u8],
    record: &mut [u8],
    lent: Option<Lend>,
) -> Result<Option<Lend>, FrameError> {
    let mut input = rt.stdin();
    let out = rt.stdout();
    let header = read_header(&mut input)?;
    let many = header.text;
    let bytes = header.record_length();
    if text.len() < many || record.len() < bytes {
        return Err(FrameError::Bad);
    }
    read_whole(&mut input, &mut text[..many])?;
    read_whole(&mut input, &mut record[..bytes])?;
    read_line_end(&mut input)?;
    match header.call {
        Call::Lend(lend) => {
            say(&out, b"lent\n");
            Ok(Some(lend))
        }
        call => {
            answer(&out, call, &text[..many], &record[..bytes], lent);
            Ok(None)
        }
    }
}

fn read_whole(from: &mut impl Read, bytes: &mut [u8]) -> Result<(), FrameError> {
    if read_in(from, bytes).many == bytes.len() {
        Ok(())
    } else {
        Err(FrameError::Bad)
    }
}

fn read_line_end(from: &mut impl Read) -> Result<(), FrameError> {
    let mut one = [0];
    read_whole(from, &mut one)?;
    if one[0] == b'\n' {
        Ok(())
    } else {
        Err(FrameError::Bad)
    }
}
