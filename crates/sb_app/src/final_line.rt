// Writing a last line, as far as the output takes it.
ghost use Rattle.std.specs.Prelude.{◌≤◌};
ghost use Rattle.sb_app.specs.Outside.{output_of};
ghost use Rattle.sb_app.specs.Endings.{IsLineWritten};

use sb_outside::{Sink, write_all};

/// Writes a line, or the front of it that the output takes before it fails.
pub fn write_final_line<K: Sink>(output: &mut K, line: &str)
    ensures { IsLineWritten line.now (output_of K.Sink output.old) (output_of K.Sink output.new) }
{
    let _ = write_all(output, line.as_bytes());
}
