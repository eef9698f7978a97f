// An array of tables that is filled table by table.
ghost use Rattle.std.specs.Prelude.{◌≡◌, ◌+◌, ◌*◌, ◌≤◌, List, length, take, drop};
ghost use Rattle.fox_server_tables.specs.Filled.{FilledTo};

// Writes table number j at its place, after those before it.
pub(crate) fn set_table<T: Copy>(t: &mut [T], j: usize, table: &[T; 256])
    requires { j * 256 + 256 ≤ length t.old }
    ensures { (whole : List T) → FilledTo whole j t.old → table.now ≡ take 256 (drop (j * 256) whole)
        → FilledTo whole (j + 1) t.new }
{
    t[j * 256..j * 256 + 256].copy_from_slice(table);
}
