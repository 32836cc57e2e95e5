//! The target of a query for one window.
ghost use Rattle.std.specs.Prelude.{◌≡◌, IfOk, OnOk};
ghost use Rattle.exact_time.specs.Written.{IsNameable, moment_text};
ghost use Rattle.form_urlencoded.specs.Form.{append_pair, extend_pairs};
ghost use Rattle.split_fetch.specs.Targets.{AreLists, CanBeAsked, code_pairs, target_bytes};

use crate::asked::Codes;
use crate::window::Window;
use exact_time::{Bytes, Moment, OutOfMemory, Text};
use form_urlencoded::Serializer;
use std::alloc::Global;

// Appends the four codes.
fn add_codes(form: &mut Serializer, codes: &Codes) -> Result<(), OutOfMemory>
    ensures { OnOk result (form.new ≡ record form.old { form = extend_pairs form.old.form (code_pairs codes.now) }) }
{
    form.append_pair("net", codes.network.as_str())?;
    form.append_pair("sta", codes.station.as_str())?;
    form.append_pair("loc", codes.location.as_str())?;
    form.append_pair("cha", codes.channel.as_str())?;
    Ok(())
}

// Appends a time with six decimals.
fn add_time(
    alloc: Global,
    form: &mut Serializer,
    name: &str,
    moment: &Moment,
) -> Result<(), OutOfMemory>
    requires { IsNameable moment.now.micros }
    ensures { OnOk result (form.new ≡ record form.old { form = append_pair form.old.form name.now (moment_text moment.now.micros) }) }
{
    let mut text = Text::new(alloc);
    moment.write(&mut text)?;
    form.append_pair(name, text.as_str())?;
    Ok(())
}

/// The target that asks for these codes in this window (FDSN Web Service Specifications 1.2, dataselect, `query`): the
/// names `net`, `sta`, `loc`, `cha`, `start` and `end` in this order, with escapes as a form has them, and the times
/// with six decimals. Read as a query string, what stands behind its `?` asks for exactly these
/// patterns and this window ([`crate::a_target_reads_back`]).
pub fn target_of(alloc: Global, codes: &Codes, window: &Window) -> Result<Bytes, OutOfMemory>
    requires lists { AreLists codes.now }
    requires window { CanBeAsked window.now }
    ensures { IfOk result (λ target. target ≡ target_bytes codes.now window.now) }
{
    let mut form = Serializer::new(String::new(alloc));
    add_codes(&mut form, codes)?;
    add_time(alloc, &mut form, "start", &window.start)?;
    add_time(alloc, &mut form, "end", &window.end)?;
    let mut target = Bytes::new(alloc);
    target.extend(b"/fdsnws/dataselect/1/query?")?;
    target.extend(form.finish().as_bytes())?;
    Ok(target)
}
