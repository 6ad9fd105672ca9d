// The answer that says how the device is set.
ghost use Rattle.std.specs.Prelude.{◌≡◌, ◌++◌, codes, string_bytes, IfOk};
ghost use Rattle.collect_text.specs.Settings.{settings_text, mode_word, switch_word};

use device_state::Settings;
use field_text::Mode;
use std::alloc::{AllocError, Global};

pub(crate) fn settings_text(alloc: Global, settings: &Settings) -> Result<String, AllocError>
    ensures { IfOk result (λ text. string_bytes text ≡ settings_text settings.now) }
{
    let mut text = String::from_str(alloc, "settings mode ")?;
    text.push_str(mode_word(settings.mode))?;
    text.push_str(" autosend ")?;
    text.push_str(switch_word(settings.auto_send))?;
    Ok(text)
}

fn mode_word(mode: Mode) -> &'static str
    ensures { result.now ≡ mode_word mode }
{
    match mode {
        Mode::Manual => "manual",
        Mode::Previous => "previous",
        Mode::Exact => "exact",
    }
}

fn switch_word(on: bool) -> &'static str
    ensures { result.now ≡ switch_word on }
{
    if on { "on" } else { "off" }
}
