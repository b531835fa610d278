// Numbers of calls, and the list of those that fail.
ghost use Rattle.std.specs.Prelude.{◌≡◌, ◌≤◌, ◌↔◌, IsTrue};
ghost use Rattle.std.specs.List.{Contains};
ghost use Rattle.odc_io.specs.Counts.{next_count};

// Counts one more, up to the end of the type.
pub fn count_up(count: &mut u64)
    ensures next { count.new ≡ next_count count.old }
    ensures risen { count.old ≤ count.new }
{
    *count = count.saturating_add(1);
}

// Whether the list names this number.
pub fn is_listed(list: &Vec<u64>, number: u64) -> bool
    ensures { IsTrue result ↔ Contains list.now.items number }
{
    list.contains(&number)
}
