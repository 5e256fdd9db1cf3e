//! What an operand begins with, by two tokens.

ghost use Rattle.std.specs.Prelude.{◌≡◌};
ghost use Rattle.mc_parse.specs.Primary.{
  sees_caller,
  begins_call,
  begins_text,
  begins_string,
  IsMissingAt,
};

use crate::place::Place;
use mc_token::Keyword;

/// Whether the word of a call is next.
fn sees_caller(place: Place<'_>) -> bool
    ensures { result ≡ sees_caller place.entry.tokens.now }
{
    match place.called() {
        Some(_) => true,
        None => match place.keyword(Keyword::Cast) {
            Some(_) => true,
            None => match place.keyword(Keyword::Convert) {
                Some(_) => true,
                None => false,
            },
        },
    }
}

/// Whether the word of a call is next, and its parenthesis. Most operands have none behind them,
/// and are told by that alone.
pub(crate) fn begins_call(place: Place<'_>) -> bool
    ensures { result ≡ begins_call place.entry.tokens.now }
{
    if place.opens_behind() {
        sees_caller(place)
    } else {
        false
    }
}

/// Whether a string or a hexadecimal literal is next.
fn begins_text(place: Place<'_>) -> bool
    ensures { result ≡ begins_text place.entry.tokens.now }
{
    match place.str() {
        Some(_) => true,
        None => match place.hex() {
            Some(_) => true,
            None => false,
        },
    }
}

/// Whether a string is next, or an introducer and a string.
pub(crate) fn begins_string(place: Place<'_>) -> bool
    ensures { result ≡ begins_string place.entry.tokens.now }
{
    match place.intro() {
        Some((_, behind)) => begins_text(behind),
        None => match place.str() {
            Some(_) => true,
            None => match place.national() {
                Some(_) => true,
                None => match place.hex() {
                    Some(_) => true,
                    None => false,
                },
            },
        },
    }
}

/// Where nothing that an operand begins with is: behind the word of a call, or here.
pub(crate) fn missing_at<'a>(place: Place<'a>) -> Place<'a>
    ensures { IsMissingAt place.entry.tokens.now result.tokens.now }
{
    match place.keyword(Keyword::Mod) {
        Some(behind) => behind,
        None => match place.keyword(Keyword::Convert) {
            Some(behind) => behind,
            None => place,
        },
    }
}
