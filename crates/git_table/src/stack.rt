//! The numbers of a seat's spare records, the front one last.
ghost use Rattle.std.specs.Prelude.{◌≡◌, ◌+◌, ◌-◌, ◌<◌, ◌≤◌, ◌++◌};
ghost use Rattle.git_table.specs.Views.{stacked};
ghost use Rattle.git_table.specs.Stacks.{option_list, front_number};

use git_limits::WORKERS;

/// The front one.
pub fn front(spares: &[u64; WORKERS], count: usize) -> Option<u64>
    requires { count ≤ WORKERS }
    ensures { result ≡ front_number (stacked spares.now count) }
{
    if count == 0 {
        return None;
    }
    Some(spares[count - 1])
}

/// How many stand behind the front one.
pub fn behind(count: usize) -> usize
    ensures { result ≡ count - 1 }
{
    if count == 0 {
        return 0;
    }
    count - 1
}

/// Puts one in front, if there is one, and gives how many there are then.
pub fn put(spares: &mut [u64; WORKERS], count: usize, spare: Option<u64>) -> usize
    requires { count < WORKERS }
    ensures few { result ≤ WORKERS }
    ensures stack { stacked spares.new result ≡ option_list spare ++ stacked spares.old count }
{
    match spare {
        Some(number) => {
            spares[count] = number;
            count + 1
        }
        None => count,
    }
}

/// Puts the first `more` of `top` in front, in their order.
pub fn pile(spares: &mut [u64; WORKERS], count: usize, top: &[u64; WORKERS], more: usize)
    requires { count + more ≤ WORKERS }
    ensures { stacked spares.new (count + more) ≡ stacked top.now more ++ stacked spares.old count }
{
    for i in 0..more {
        spares[count + i] = top[i];
    }
}
