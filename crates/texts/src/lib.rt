//! Text that is made piece by piece, and what comes of a call that prints.
#![tactic(auto)]

ghost use Rattle.std.specs.Prelude.{◌≡◌, [], ◌∷◌, ◌++◌, IfSome, IfOk, OnOk, Some, string_bytes};
ghost use Rattle.texts.specs.Telling.{Telling, newline};
ghost use Rattle.texts.specs.declared.Failure.TheVariants.{Memory};

use std::alloc::{AllocError, AllocFailed, Global};
use std::fmt::Display;

/// Adds to a text what a value shows. It fails only for want of memory; what the text holds then is left open.
pub fn append<D: Display + Drop>(text: &mut String, value: D) -> Result<(), AllocError>
    ensures { OnOk result (IfSome (D.output value) (λ bs. string_bytes text.new ≡ string_bytes text.old ++ bs)) }
{
    text.write(value)
}

/// Why no text is made: for want of memory, or since what was given is refused.
#[derive(Drop)]
pub enum Failure<E> {
    Memory,
    Refused(E),
}

impl<E> From<AllocError> for Failure<E> {
    ghost from_gives = { λ _ e. e ≡ Memory };

    fn from(_error: AllocError) -> Failure<E> {
        Failure::Memory
    }
}

impl<E, T: Drop> From<AllocFailed<T>> for Failure<E> {
    ghost from_gives = { λ _ e. e ≡ Memory };

    fn from(_failed: AllocFailed<T>) -> Failure<E> {
        Failure::Memory
    }
}

/// What a call prints, and why it refused what it was given, if it did. A refusal has a text too.
#[derive(Drop)]
pub struct Printed<E> {
    pub text: String,
    pub refused: Option<E>,
}

impl<E: Drop> Printed<E> {
    /// A refusal: what is shown of it, as a line, is the text. It fails only for want of memory.
    pub fn refusing<D: Display + Drop>(
        heap: Global,
        shown: D,
        refused: E,
    ) -> Result<Self, AllocError>
        ensures line { IfOk result (λ p. IfSome (D.output shown) (λ bs. string_bytes p.text ≡ bs ++ newline)) }
        ensures refused { IfOk result (λ p. p.refused ≡ Some refused) }
    {
        let mut text = String::new(heap);
        text.writeln(shown)?;
        Ok(Printed {
            text,
            refused: Some(refused),
        })
    }
}

impl<E: Display + Copy> Printed<E> {
    /// What came of making a text: the text, or the line of a refusal, with this word in front of what it shows. It fails
    /// only for want of memory.
    pub fn telling(
        heap: Global,
        word: &str,
        made: Result<String, Failure<E>>,
    ) -> Result<Self, AllocError>
        ensures { Telling E.output word.now made result }
    {
        match made {
            Ok(text) => Ok(Printed {
                text,
                refused: None,
            }),
            Err(Failure::Memory) => Err(AllocError),
            Err(Failure::Refused(refused)) => {
                Printed::refusing(heap, format_args!("{word}{refused}"), refused)
            }
        }
    }
}

#[cfg(test)]
mod tests {
    use super::*;
    use std::test::Fail;

    #[test]
    fn a_text_is_told_as_it_is(rt: HostRuntime) -> Result<(), Fail> {
        let mut text = String::new(rt.alloc());
        append(&mut text, 5u8)?;
        let printed = Printed::<u8>::telling(rt.alloc(), "refused ", Ok(text))?;
        assert_eq!(rt; printed.text.as_str(), "5");
        assert_eq!(rt; printed.refused, None);
        Ok(())
    }

    #[test]
    fn a_refusal_is_told_by_its_line(rt: HostRuntime) -> Result<(), Fail> {
        let printed = Printed::telling(rt.alloc(), "refused ", Err(Failure::Refused(7u8)))?;
        assert_eq!(rt; printed.text.as_str(), "refused 7\n");
        assert_eq!(rt; printed.refused, Some(7));
        Ok(())
    }
}
