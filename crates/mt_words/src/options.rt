// The options of a job.
ghost use Rattle.std.specs.Prelude.{◌≡◌, IfOk};
ghost use Rattle.mt_words.specs.Found.{FindsMean, FindsRun, MayRun, is_any_given};
ghost use Rattle.mt_words.specs.Held.{options_are};

use crate::given::Options;
use crate::job::{MeanOptions, RunOptions};
use crate::numbers::{choices_or_default, count_or_default, stack_or_default};
use std::alloc::{AllocError, Global};

/// The options of a run; `None` where a value is wrong, or an option is given that no run has.
pub fn run_options(alloc: Global, options: Options<'_>) -> Result<Option<RunOptions>, AllocError>
    ensures { IfOk result (FindsRun (options_are options.entry)) }
{
    if options.out.is_some() {
        return Ok(None);
    }
    if options.work.is_some() {
        return Ok(None);
    }
    match count_or_default(options.steps) {
        Some(steps) => run_with_steps(alloc, options, steps),
        None => Ok(None),
    }
}

// The options of a run of so many steps.
fn run_with_steps(
    alloc: Global,
    options: Options<'_>,
    steps: u64,
) -> Result<Option<RunOptions>, AllocError>
    requires may_run { MayRun (options_are options) steps }
    ensures { IfOk result (FindsRun (options_are options.entry)) }
{
    let found = choices_or_default(alloc, options.tags)?;
    match stack_or_default(options.stack) {
        Some(stack) => match found {
            Some(choices) => Ok(Some(RunOptions {
                choices,
                steps,
                stack,
            })),
            None => Ok(None),
        },
        None => Ok(None),
    }
}

/// The options of a meaning; `None` where a value is wrong, or an option is given that no meaning has.
pub fn mean_options(options: Options<'_>) -> Option<MeanOptions>
    ensures { FindsMean (options_are options.entry) result }
{
    if options.out.is_some() {
        return None;
    }
    if options.tags.is_some() {
        return None;
    }
    if options.steps.is_some() {
        return None;
    }
    match count_or_default(options.work) {
        Some(work) => match stack_or_default(options.stack) {
            Some(stack) => Some(MeanOptions { work, stack }),
            None => None,
        },
        None => None,
    }
}

/// Whether an option of a run or a meaning is given.
pub fn is_any_given(options: Options<'_>) -> bool
    ensures { result ≡ is_any_given options.entry }
{
    if options.tags.is_some() {
        return true;
    }
    if options.steps.is_some() {
        return true;
    }
    if options.stack.is_some() {
        return true;
    }
    options.work.is_some()
}
