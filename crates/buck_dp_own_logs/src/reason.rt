//! Why a log can't be cut.
ghost use Rattle.std.specs.Prelude.{◌≡◌};
ghost use Rattle.buck_dp_own_logs.specs.Reasons.{reason_name, number_of};

/// Why a log of a cutting can't be cut where it stands. Several reasons may apply to a log; the first of this list that
/// does is reported.
#[derive(Clone, Copy, Debug, PartialEq, Eq, Drop)]
pub enum Reason {
    /// It starts before the log before it ends, trim included.
    Order,
    /// The instruction has no such assortment.
    Assortment,
    /// The stem is of another species than its assortment.
    Species,
    /// Its start is no multiple of the module.
    Start,
    /// Its length is none of its assortment's.
    Length,
    /// Its end, trim included, lies past the stem's.
    End,
    /// Some place along it has a grade that is none of its assortment's.
    Grade,
    /// Its top diameter is below its assortment's first lower limit, or not below the upper diameter.
    Diameter,
    /// The base price of its class is 0.
    Price,
}

impl Reason {
    /// The reason's word, in lower case.
    pub fn name(self) -> &'static str
        ensures { result.now ≡ reason_name self }
    {
        match self {
            Reason::Order => "order",
            Reason::Assortment => "assortment",
            Reason::Species => "species",
            Reason::Start => "start",
            Reason::Length => "length",
            Reason::End => "end",
            Reason::Grade => "grade",
            Reason::Diameter => "diameter",
            Reason::Price => "price",
        }
    }

    /// The reason's place among all, counted from 1.
    pub fn number(self) -> u8
        ensures { result ≡ number_of self }
    {
        match self {
            Reason::Order => 1,
            Reason::Assortment => 2,
            Reason::Species => 3,
            Reason::Start => 4,
            Reason::Length => 5,
            Reason::End => 6,
            Reason::Grade => 7,
            Reason::Diameter => 8,
            Reason::Price => 9,
        }
    }
}
