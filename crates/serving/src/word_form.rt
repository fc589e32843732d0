//! The form of the words of a scheduler that serves connections.

ghost use Rattle.std.specs.Prelude.{◌≡◌, ◌≤◌, option_map};
ghost use Rattle.std.specs.Option.{IfSome};
ghost use Rattle.serving.specs.Words.{serve_form, serve_words, stored_words};

use crate::serve_words::ServeForm;
use farm_types::Text;
use session::read_number;

// The last port, and the most workers and connections.
const LAST_PORT: u32 = 65535;

const MOST_WORKERS: u32 = 64;

const MOST_CONNECTIONS: u32 = 1_000_000_000;

/// What the words ask for. None comes exactly where they are invalid.
pub fn serve_form(words: &[Text]) -> Option<ServeForm<'_>>
    ensures value { option_map serve_words result ≡ serve_form words.now }
    ensures workers { IfSome result (λ form. (1 ≤ form.workers) × (form.workers ≤ 64)) }
{
    match words {
        [word, store, port, workers, connections] if word.is("serve") => {
            stored_words(store, port.as_str(), workers.as_str(), connections.as_str())
        }
        _ => None,
    }
}

// The same for the words behind the first one. The empty word is no store.
fn stored_words<'a>(
    store: &'a Text,
    port: &str,
    workers: &str,
    connections: &str,
) -> Option<ServeForm<'a>>
    ensures value { option_map serve_words result ≡ stored_words store.now port.now workers.now connections.now }
    ensures workers { IfSome result (λ form. (1 ≤ form.workers) × (form.workers ≤ 64)) }
{
    if store.is("") {
        return None;
    }
    let port = read_number(port, 1, LAST_PORT)?;
    let workers = read_number(workers, 1, MOST_WORKERS)?;
    let connections = read_number(connections, 1, MOST_CONNECTIONS)?;
    Some(ServeForm {
        store: store.as_str(),
        port: port as u16,
        workers,
        connections,
    })
}
