//! The forms of the words that the program is given.

ghost use Rattle.std.specs.Prelude.{◌≡◌, option_map};
ghost use Rattle.std.specs.Option.{IfSome};
ghost use Rattle.session.specs.Words.{IsWithin, form_of, load_form, script_form, word_form};

use crate::number::read_number;
use crate::words::Form;
use farm_gen::MOST_LOAD;
use farm_types::Text;

/// The form of the words. None comes exactly where they are invalid.
pub fn form(words: &[Text]) -> Option<Form<'_>>
    ensures value { option_map word_form result ≡ form_of words.now }
    ensures within { IfSome result (λ form. IsWithin (word_form form)) }
{
    match words {
        [word] if word.is("demo") => Some(Form::Demo),
        [word, store] if word.is("script") => script_form(store),
        [word, number] if word.is("load") => load_form(number.as_str()),
        _ => None,
    }
}

// The form of a session over that store. The empty word is none.
fn script_form(store: &Text) -> Option<Form<'_>>
    ensures value { option_map word_form result ≡ script_form store.now }
    ensures within { IfSome result (λ form. IsWithin (word_form form)) }
{
    if store.is("") {
        return None;
    }
    Some(Form::Script {
        store: store.as_str(),
    })
}

// The form of a load of that many frames a layer.
fn load_form(number: &str) -> Option<Form<'static>>
    ensures value { option_map word_form result ≡ load_form number.now }
    ensures within { IfSome result (λ form. IsWithin (word_form form)) }
{
    let n = read_number(number, 1, MOST_LOAD)?;
    Some(Form::Load { n })
}
