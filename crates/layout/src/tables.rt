// Tables of numbers that are made once for a program.
ghost use Rattle.std.specs.Prelude.{◌≡◌, get_or};

// Entry i of a table, and 0 past its end.
pub fn entry(table: &[u16], i: usize) -> usize
    ensures { result ≡ get_or table.now i 0 }
{
    table.get(i).map_or(0, |&x| x as usize)
}
