// One client and one server on two wires, of several capacities and with several orders of moves. The calls' results, the image and the bytes carried
// are written for each, and are the same.
#![tactic(auto)]

mod ends;
mod print;
mod schedule;
mod script;

ghost use Rattle.std.specs.Prelude.{◌≤◌};

use ends::Ends;
use schedule::Order;

// A run with wires of N bytes.
fn run<const N: usize>(order: Order)
    requires { N ≤ 4096 }
{
    print::tell(format_args!("wires of {N}, order {}\n", order as u8));
    let mut up = [0u8; N];
    let mut down = [0u8; N];
    let mut ends = Ends::new(order, &mut up, &mut down);
    for k in script::calls() {
        ends.call(k);
    }
    ends.show();
}

fn orders<const N: usize>()
    requires { N ≤ 4096 }
{
    for order in [Order::Whole, Order::Bytes, Order::Server, Order::Chance] {
        run::<N>(order);
    }
}

fn main() {
    orders::<1>();
    orders::<2>();
    orders::<7>();
    orders::<4096>();
}
