//! Writing frames.

ghost use Rattle.lsp_frames.specs.Frames.{frame_of};
ghost use Rattle.std.specs.Io.KnownBytes.{Appends};
ghost use Rattle.std.specs.Prelude.{OnOk};

use std::io;
use std::io::Write;

/// Writes a message as a frame. Returns errors of the writer.
pub fn write_frame<W: Write>(output: &mut W, message: &str) -> io::Result<()>
    ensures { OnOk result (Appends (W.contents output.old) (W.contents output.new) (frame_of message.now)) }
{
    write!(output, "Content-Length: {}\r\n\r\n{message}", message.len())
}
