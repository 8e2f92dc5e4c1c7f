ghost use Rattle.std.specs.Prelude.{◌≡◌, ◌==◌, if◌then◌else◌, map};
ghost use Rattle.std.specs.List.{enumerate_from};
ghost use Rattle.config_rules.specs.MachineText.{with_policies};
ghost use Rattle.machine_text.specs.Words.{seen};

use crate::word::is_one;
use cf_types::Policy;

/// A policy with those of the words added.
fn with_policies(words: &[&[u8]], policy: Policy) -> Policy
    ensures { result ≡ with_policies (seen words.now) policy }
{
    Policy {
        nodetach: policy.nodetach || is_one(words, b"nodetach"),
        norescan: policy.norescan || is_one(words, b"norescan"),
        nopower: policy.nopower || is_one(words, b"nopower"),
        failsuspend: policy.failsuspend || is_one(words, b"failsuspend"),
        defer: policy.defer || is_one(words, b"defer"),
        interrupts: policy.interrupts || is_one(words, b"interrupts"),
        finaliser: policy.finaliser || is_one(words, b"final"),
    }
}

/// Adds the policies of the words to those of an attachment.
pub fn add_policies(policies: &mut Vec<Policy>, attach: usize, words: &[&[u8]])
    ensures { policies.new.items ≡ map (λ e. if e.0 == attach then with_policies (seen words.now) e.1 else e.1) (enumerate_from 0 policies.old.items) }
{
    if attach < policies.len() {
        policies[attach] = with_policies(words, policies[attach]);
    }
}
