// partial_space_or_tab.rs: the indentation of a block. Only spaces count: a tab stands for more columns than a block may be indented by.
ghost use Rattle.std.specs.Prelude.{◌≡◌, ◌+◌, drop};
ghost use Rattle.rules.specs.Block.{indentation};

use lexical::slice::from_indices;

// Past the spaces at an index.
//
//       <div>
//     ^^
pub fn inside(line: &[u8], index: usize) -> usize
    ensures { result ≡ index + indentation (drop index line.now) }
{
    let spaces = from_indices(line, index, line.len())
        .iter()
        .take_while(|b| **b == b' ')
        .count();
    index + spaces
}
