//! Writing rules to a sink in blocks of lines, so the text is never stored as a whole and one
//! write contains many lines. The block is on the stack.

ghost use Rattle.std.specs.Prelude.{◌≡◌, ◌<◌, ◌≤◌, OnOk, OnErr, IfOk, Some, length, slice_get, take};
ghost use Rattle.std.specs.List.{concat};
ghost use Rattle.std.specs.Io.KnownBytes.{append_known};
ghost use Rattle.edge_io.specs.Counts.{Rose};
ghost use Rattle.edge_io.specs.Observable.{AppendsPrefixOf};
ghost use Rattle.run_core.specs.inner.Blocks.{HasRoom};
ghost use Rattle.run_core.specs.inner.Views.{rules_lines};

use crate::dialect::Rules;
use edge_io::{Sink, WriteFault, put_all};

/// The greatest length of a line, in bytes.
const LINE: usize = 320;

/// The size of a block: 8 KB and room for a line, so each write except the last has more than 8 KB.
const BLOCK: usize = 8512;

/// Writes the lines of rules to the sink, in blocks, and stops at the first error. Does not
/// allocate.
pub fn put_lines<O: Sink>(sink: &mut O, rules: &Rules) -> Result<(), WriteFault>
    ensures prefix { AppendsPrefixOf (O.held sink.old) (O.held sink.new) (concat (rules_lines rules.now)) }
    ensures whole { OnOk result (O.held sink.new ≡ append_known (O.held sink.old) (concat (rules_lines rules.now))) }
    ensures faults_monotone { O.faults sink.old ≤ O.faults sink.new }
    ensures fault { OnErr result (Rose (O.faults sink.old) (O.faults sink.new)) }
{
    let mut block = [0; BLOCK];
    let mut filled = 0;
    for i in 0..rules.lines() {
        let start = make_room(sink, &block, filled)?;
        filled = start + write_front(rules, i, &mut block[start..]);
    }
    put_all(sink, &block[..filled])
}

/// Writes line `i` to the front of the room, and returns its length.
fn write_front(rules: &Rules, i: u32, room: &mut [u8]) -> usize
    requires there { i < length (rules_lines rules.now) }
    requires fits { 320 ≤ length room.old }
    ensures line { slice_get (rules_lines rules.now) i ≡ Some (take result room.new) }
    ensures short { result ≤ 320 }
{
    let front = room.first_chunk_mut::<LINE>().unwrap();
    rules.write_line(i, front)
}

/// Writes the block if its free room may be too small for a line, and returns its filled length.
fn make_room<O: Sink>(sink: &mut O, block: &[u8; 8512], filled: usize) -> Result<usize, WriteFault>
    requires { filled ≤ 8512 }
    ensures room { IfOk result (λ left. left ≤ 8192) }
    ensures left { IfOk result (λ left.
        HasRoom (O.held sink.old) (O.held sink.new) (take filled block.now) (take left block.now)) }
    ensures prefix { OnErr result (AppendsPrefixOf (O.held sink.old) (O.held sink.new) (take filled block.now)) }
    ensures faults_monotone { O.faults sink.old ≤ O.faults sink.new }
    ensures fault { OnErr result (Rose (O.faults sink.old) (O.faults sink.new)) }
{
    if filled + LINE <= BLOCK {
        return Ok(filled);
    }
    put_all(sink, &block[..filled])?;
    Ok(0)
}
