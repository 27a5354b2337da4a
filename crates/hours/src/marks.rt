// Zone marks: the zone of each clock hour, of a working day and of a Saturday or Sunday.
ghost use Rattle.hours.specs.Packed.{Coded};

pub(crate) mod calls;

// The zones of the clock hours of a working day and of a Saturday or Sunday, packed: two bits each, the first hour's lowest.
#[derive(Clone, Copy)]
pub struct Marks {
    pub(crate) working: u64,
    pub(crate) weekend: u64,
    ghost working_coded: { Coded working },
    ghost weekend_coded: { Coded weekend },
}
