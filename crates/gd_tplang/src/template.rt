//! The template that bytes mean.
ghost use Rattle.std.specs.Prelude.{◌≡◌, ◌<◌, MatchResult, Ok, Err};
ghost use Rattle.gd_base.specs.Answers.{Gives};
ghost use Rattle.gd_template.specs.Built.{view};
ghost use Rattle.gd_tplang.specs.Cause.{IsCause, Means, Surveys};
ghost use Rattle.gd_tplang.specs.Meaning.{template_in};
ghost use Rattle.gd_tplang.specs.Stop.{Stopped};
ghost use Rattle.gd_tplang.specs.Survey.{surveyed};

use crate::build::build_from;
use crate::stop::{Stop, TplFault};
use crate::survey::survey;
use gd_template::template::{DEEPEST, Template};
use std::alloc::Global;

/// Whether a text in a template is no pattern, and how many templates lie one within the other.
#[derive(Clone, Copy)]
struct Marks {
    is_bad: bool,
    deepest: usize,
}

/// What is seen of the template that all of the bytes spell.
fn seen_in(alloc: Global, bytes: &[u8]) -> Result<Marks, TplFault>
    ensures { Surveys bytes.now result }
{
    match survey(alloc, bytes) {
        Ok(walk) => Ok(Marks {
            is_bad: walk.is_bad(),
            deepest: walk.deepest(),
        }),
        Err(Stop::Memory) => Err(TplFault::Memory),
        Err(Stop::Bad { left }) => Err(TplFault::BadTemplate {
            offset: (bytes.len() - left) as u64,
        }),
    }
}

/// The template that bytes mean. They may be of any length, and nest as deep as they are long.
/// Where they mean none, the first of these is told:
///
/// - `BadTemplate`: they are the text of no template, and the longest front of them that begins one
///   has `offset` bytes;
/// - `BadPattern`: they are one, and a text in it with which words are compared is no pattern;
/// - `TooDeep`: more than 32 templates lie one within the other.
///
/// `Memory`: an allocation was refused. It may come in place of any other outcome.
pub fn template_from(alloc: Global, bytes: &[u8]) -> Result<Template, TplFault>
    ensures given { Gives view TplFault.Memory (template_in bytes.now) result }
    ensures read { MatchResult result (Means bytes.now) (IsCause bytes.now) }
{
    let marks = seen_in(alloc, bytes)?;
    if marks.is_bad {
        return Err(TplFault::BadPattern);
    }
    if marks.deepest > DEEPEST as usize {
        return Err(TplFault::TooDeep);
    }
    match build_from(alloc, bytes) {
        Ok(template) => Ok(template),
        Err(_refused) => Err(TplFault::Memory),
    }
}
