// The exports of host/src/frames.rt.
ghost use Rattle.std.specs.Prelude.{◌≡◌};
ghost use Rattle.arrivals.specs.Says.{arrival};
ghost use Rattle.shapes.specs.Shapes as specs;

use arrivals::Record;
use shapes::GustArrival;

#[unsafe(no_mangle)]
pub extern "C" fn gust_arrive(was: Record, number: u16) -> GustArrival
    ensures { result ≡ specs.arrival_in (arrival was number) }
{
    host::gust_arrive(was, number)
}
