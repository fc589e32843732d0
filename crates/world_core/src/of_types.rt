//! That numbers and texts are those of their types.

ghost use Rattle.std.specs.Prelude.{◌≡◌, ◌<◌, ◌^◌, true};
ghost use Rattle.std.specs.List.{AllByRecursion};
ghost use Rattle.std.specs.Str.{is_utf8};
ghost use Rattle.world_law.specs.Happens.{IsOfTypes};
ghost use Rattle.world_law.specs.Texts.{IsConfigWithin};

use farm_types::Exit;
use rqd_core::RqdConfig;
use world_law::Event;

/// Each number of the event is one of its type.
pub(crate) fn is_of_types(event: &Event)
    ensures { IsOfTypes event.now }
{
    match event {
        Event::ToCue { moment, .. } => {
            let _moment = *moment;
        }
        Event::Ended { exit, .. } => is_exit_within(exit),
        Event::NewLife { nonce, .. } => {
            let _nonce = *nonce;
        }
        Event::Restart { moment, .. } => {
            let _moment = *moment;
        }
        _ => {}
    }
}

fn is_exit_within(exit: &Exit)
    ensures { (exit.now.status < 2 ^ 32) × (exit.now.signal < 2 ^ 32) }
{
    let _status = exit.status;
    let _signal = exit.signal;
}

/// So are the numbers of these configurations, and their texts are UTF-8.
pub(crate) fn are_of_types(configs: &[RqdConfig])
    ensures { AllByRecursion IsConfigWithin configs.now }
{
    for config in configs {
        is_config_within(config);
    }
}

fn is_config_within(config: &RqdConfig)
    ensures { IsConfigWithin config.now }
{
    is_text(config.name.as_str());
    is_text(config.alloc.as_str());
    let _cores = config.cores.0;
    let _memory = config.memory.0;
    let _nonce = config.nonce;
}

// A text is UTF-8.
fn is_text(text: &str)
    ensures { is_utf8 text.now ≡ true }
{
    let _bytes = text.as_bytes();
}
