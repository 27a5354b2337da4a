// One thing for each of the three zones.
ghost use Rattle.std.specs.Prelude.{◌≡◌};
ghost use Rattle.std.specs.Fn.{FnReturnsAt};
ghost use Rattle.std.specs.Borrow.{sem};
ghost use Rattle.settlement.specs.Lending.{LendsZone};
ghost use Rattle.settlement.specs.Zones.{in_order, of, Matched, MatchedThree};

use hours::Zone;

// One thing for each zone.
#[derive(Clone, Copy, Default)]
pub struct Zones<T> {
    pub one: T,
    pub two: T,
    pub three: T,
}

// Three things, by zone.
impl<T> From<[T; 3]> for Zones<T> {
    ghost from_gives = { λ things zones. things ≡ in_order zones };

    fn from(things: [T; 3]) -> Zones<T> {
        let [one, two, three] = things;
        Zones { one, two, three }
    }
}

impl<T> Zones<T> {
    // What a zone has. A zone is matched with its thing here and in `of_mut`, so that no caller does.
    pub fn of(&self, zone: Zone) -> &T
        ensures { result.now ≡ of zone self.now }
    {
        match zone {
            Zone::First => &self.one,
            Zone::Second => &self.two,
            Zone::Third => &self.three,
        }
    }

    // What a zone has, to be changed.
    pub fn of_mut(&mut self, zone: Zone) -> &mut T
        ensures* writes_back { sem 𝓛 (LendsZone T.row self.entry zone result) }
        ensures value { result.now ≡ of zone self.old }
    {
        match zone {
            Zone::First => &mut self.one,
            Zone::Second => &mut self.two,
            Zone::Third => &mut self.three,
        }
    }

    // What is made of the thing of each zone.
    pub fn map<U, F: Fn(&T) -> U>(&self, make: F) -> Zones<U>
        requires { F.IsAlwaysCallable make }
        ensures { Matched (FnReturnsAt F.Fn make) self.now result }
    {
        Zones {
            one: make(&self.one),
            two: make(&self.two),
            three: make(&self.three),
        }
    }

    // What is made of the two things of each zone.
    pub fn zip_with<U, W, F: Fn(T, U) -> W>(self, others: Zones<U>, make: F) -> Zones<W>
        requires one { F.pre make self.one others.one }
        requires two { F.pre make self.two others.two }
        requires three { F.pre make self.three others.three }
        ensures { MatchedThree (F.post make) self others result }
    {
        Zones {
            one: make(self.one, others.one),
            two: make(self.two, others.two),
            three: make(self.three, others.three),
        }
    }
}
