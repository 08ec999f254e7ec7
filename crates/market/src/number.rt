// The numbers of makers, classes and series.
ghost use Rattle.std.specs.Prelude.{◌≡◌, ◌<◌};

use values::refusal::Refusal;

// A number below N.
#[derive(Clone, Copy)]
pub struct Number<const N: u8> {
    value: u8,
    ghost below: { value < N },
}

// Makers and classes are 0 to 15, series 0 to 63.
pub type Maker = Number<16>;

pub type Class = Number<16>;

pub type SeriesNumber = Number<64>;

impl<const N: u8> Number<N> {
    // The number of what has been found to be there.
    // Of a number that is known to be below N.
    pub fn new(value: u32) -> Self
        requires { value < N }
        ensures { result.value ≡ value }
    {
        Number { value: value as u8 }
    }

    // The number by itself.
    pub fn get(self) -> u8
        ensures value { result ≡ self.entry.value }
        ensures below { result < N }
    {
        self.value
    }
}

// What a call names is tested: there has to be one with that number.
impl<const N: u8> TryFrom<u32> for Number<N> {
    ghost use Rattle.market.specs.Numbers.{Names};

    type Error = Refusal;

    ghost try_from_gives = { λ n r. Names N n r };

    fn try_from(value: u32) -> Result<Self, Refusal> {
        if value < u32::from(N) {
            Ok(Number::new(value))
        } else {
            Err(Refusal::Name)
        }
    }
}
