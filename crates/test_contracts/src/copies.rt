//! Clones that allocate nothing: each always succeeds, with an equal value.
ghost use Rattle.std.specs.Prelude.{◌≡◌, IsOk, IfOk};

use literal_prefilters::Input;
use literal_prefilters::packed::Config;
use literal_prefilters::packed::pattern::Pattern;
use literal_prefilters::prefilter::Candidate;
use std::alloc::AllocError;

/// The same candidate.
pub fn copy_of_candidate(candidate: &Candidate) -> Result<Candidate, AllocError>
    ensures succeeds { IsOk result }
    ensures same { IfOk result (λ copy. copy ≡ candidate.now) }
{
    candidate.clone()
}

/// The same input.
pub fn copy_of_input<'h>(input: &Input<'h>) -> Result<Input<'h>, AllocError>
    ensures succeeds { IsOk result }
    ensures same { IfOk result (λ copy. copy ≡ input.now) }
{
    input.clone()
}

/// The same pattern.
pub fn copy_of_pattern<'p>(pattern: &Pattern<'p>) -> Result<Pattern<'p>, AllocError>
    ensures succeeds { IsOk result }
    ensures same { IfOk result (λ copy. copy ≡ pattern.now) }
{
    pattern.clone()
}

/// The same configuration.
pub fn copy_of_config(config: &Config) -> Result<Config, AllocError>
    ensures succeeds { IsOk result }
    ensures same { IfOk result (λ copy. copy ≡ config.now) }
{
    config.clone()
}
