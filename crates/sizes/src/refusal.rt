// Why a call is refused. Each refusal has the number by which C and the scripts know it.
ghost use Rattle.std.specs.Prelude.{◌≡◌, ℕ};
ghost use Rattle.sizes.specs.Refusals.{number_by};

pub trait Refusal {
    ghost number: { Self → ℕ };

    fn number(self) -> u32
        ensures { result ≡ number self };
}

// A store is not sound: its header does not fit it, or it holds a number that no sound store has.
#[derive(Clone, Copy, Debug, PartialEq, Eq)]
pub struct Unsound;

impl Refusal for Unsound {
    ghost number = { λ _. 9 };

    fn number(self) -> u32 {
        9
    }
}

// The number of an answer: 0, or its refusal's.
pub fn number_of<T: Copy, E: Refusal>(answer: Result<T, E>) -> u32
    ensures { result ≡ number_by E.number answer }
{
    match answer {
        Ok(_) => 0,
        Err(refusal) => refusal.number(),
    }
}
