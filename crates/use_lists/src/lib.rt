// The uses of one link, listed in a lent part, and copied.
#![tactic(auto)]

ghost use Rattle.std.specs.Prelude.{◌≡◌, ◌≤◌, ◌<◌, length};
ghost use Rattle.row_uses.specs.Uses.{most_uses};
ghost use Rattle.use_lists.specs.Lists.{Falling, ListedIn, Copied};

// Lists the numbers of the chain that begins at `start`, and answers how many they are, or nothing where there is no room for
// them. By hand: the chain ends the loop, and the room only stops it. `as`: a number fits, it is below 16,191.
pub fn list_chain(start: usize, prev: &[u16], order: &mut [u16]) -> Option<usize>
    requires few_uses { (start ≤ most_uses) × (start ≤ length prev.now) × (length order.old ≤ most_uses) }
    requires falling { Falling prev.now }
    ensures { ListedIn prev.now start (length order.old) order.new result }
{
    let mut count = 0;
    let mut k = start;
    while 0 < k {
        if count == order.len() {
            return None;
        }
        let at = k - 1;
        order[count] = at as u16;
        count += 1;
        k = usize::from(prev[at]);
    }
    Some(count)
}

// Copies the numbers to the head of the others.
pub fn copy(order: &[u16], to: &mut [u16])
    requires { length order.now ≤ length to.old }
    ensures { Copied (length order.now) order.now to.new }
{
    to[..order.len()].copy_from_slice(order);
}
