// The sends in flight: begun by a hand, and not ended.
ghost use Rattle.std.specs.Prelude.{◌≡◌, ◌<◌};
ghost use Rattle.device_state.specs.Flights.{ended, flights_changed, has_flight, is_by, is_flight, place_of};

use entry_form::Hand;
use field_rows::Rows;

/// A send that a hand has begun and not ended.
#[derive(Clone, Copy, Debug, PartialEq, Eq)]
pub struct Flight {
    pub hand: Hand,
    /// The number of the instance.
    pub number: u64,
}

impl Flight {
    /// Whether this hand has begun it.
    pub fn is_by(&self, hand: Hand) -> bool
        ensures { result ≡ is_by hand self.now }
    {
        self.hand.number() == hand.number()
    }

    /// Whether this hand has begun it for the instance with this number.
    pub fn is_flight(&self, hand: Hand, number: u64) -> bool
        ensures { result ≡ is_flight hand number self.now }
    {
        self.is_by(hand) && self.number == number
    }
}

/// Whether a send of the instance with this number is in flight.
pub fn has_flight(flights: &[Flight], number: u64) -> bool
    ensures { result ≡ has_flight number flights.now }
{
    flights.iter().any(|flight| flight.number == number)
}

/// What becomes of the sends in flight.
#[derive(Debug, Drop)]
pub enum FlightChange {
    Keep,
    Begin(Flight),
    End(Flight),
    /// These take the place of all.
    All(Rows<Flight>),
}

fn place_of(flights: &[Flight], hand: Hand, number: u64) -> Option<usize>
    ensures { result ≡ place_of hand number flights.now }
{
    flights
        .iter()
        .position(|flight| flight.is_flight(hand, number))
}

fn end(flights: &mut Rows<Flight>, flight: Flight)
    ensures { flights.new.items ≡ ended flight.hand flight.number flights.old.items }
{
    if let Some(place) = place_of(flights.as_slice(), flight.hand, flight.number) {
        let _ended = flights.remove(place as u64);
    }
}

impl FlightChange {
    pub(crate) fn put_into(self, flights: &mut Rows<Flight>)
        requires { 0 < flights.old.spare }
        ensures { flights.new.items ≡ flights_changed self flights.old.items }
    {
        match self {
            FlightChange::Keep => {}
            FlightChange::Begin(flight) => flights.push(flight),
            FlightChange::End(flight) => end(flights, flight),
            FlightChange::All(all) => *flights = all,
        }
    }
}
