// Frames that arrive: the record by value, and nothing kept between calls.
ghost use Rattle.std.specs.Prelude.{◌≡◌};
ghost use Rattle.arrivals.specs.Says.{arrival};
ghost use Rattle.shapes.specs.Shapes as specs;

use arrivals::Record;
use shapes::GustArrival;

// `arrivals::arrive`: a record whose bytes are all 0 is fresh.
pub fn gust_arrive(was: Record, number: u16) -> GustArrival
    ensures { result ≡ specs.arrival_in (arrival was number) }
{
    shapes::of_arrival(was, arrivals::arrive(was, number))
}
