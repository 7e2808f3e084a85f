// The configuration of a space (01's set-up): how many processes, how many of them may be faulty, the policy, and under policy 3 how many
// offsets may be chosen among.
ghost use Rattle.std.specs.Prelude.{◌≡◌, ◌+◌, ◌*◌, ◌≤◌, leb};
ghost use Rattle.space.specs.Configs.{sound, choice_sound, plain_sound, has_proposals, has_choices, has_list, has_announcements, known, blank_config};

use crate::bounds::{FEWEST_CHOICES, LAST_POLICY, MOST_CHOICES, PROCESSES};

#[repr(C)]
#[derive(Clone, Copy)]
pub struct Config {
    pub n: u64,
    pub t: u64,
    pub policy: u64,
    pub k: u64,
}

impl Config {
    // The configuration that stands beside a refusal.
    pub fn blank() -> Self
        ensures { result ≡ blank_config }
    {
        Config {
            n: 0,
            t: 0,
            policy: 0,
            k: 0,
        }
    }

    // Whether n is 1 to 31, the policy at most 5, and n and k are what the policy needs.
    #[tactic(auto, unfolding(crate::specs::Configs::sound))]
    pub fn is_sound(self) -> bool
        ensures { result ≡ sound self }
    {
        (1..=PROCESSES as u64).contains(&self.n)
            && if self.has_choices() {
                choice_sound(self)
            } else {
                plain_sound(self)
            }
    }

    // Whether decisions rest on proposals: policies 2 and 3.
    #[tactic(auto, unfolding(crate::specs::Configs::has_proposals))]
    pub fn has_proposals(self) -> bool
        ensures { result ≡ has_proposals self }
    {
        self.policy == 2 || self.has_choices()
    }

    // Whether offsets are chosen among k: policy 3.
    pub fn has_choices(self) -> bool
        ensures { result ≡ has_choices self }
    {
        self.policy == 3
    }

    // Whether the processes share a list: policies 4 and 5.
    #[tactic(auto, unfolding(crate::specs::Configs::has_list))]
    pub fn has_list(self) -> bool
        ensures { result ≡ has_list self }
    {
        self.policy == 4 || self.has_announcements()
    }

    // Whether a process may announce what is to be listed: policy 5.
    pub fn has_announcements(self) -> bool
        ensures { result ≡ has_announcements self }
    {
        self.policy == 5
    }

    // Whether this is one of the processes 1 to n.
    #[tactic(auto, unfolding(crate::specs::Configs::known))]
    pub fn knows(self, process: u64) -> bool
        ensures { result ≡ known self process }
    {
        1 <= process && process <= self.n
    }
}

// Under policy 3: whether k is 2 to 8, and n at least (k + 1)t + 1.
#[tactic(auto, unfolding(crate::specs::Configs::choice_sound))]
fn choice_sound(config: Config) -> bool
    requires { 1 ≤ config.n }
    ensures { result ≡ choice_sound config }
{
    (FEWEST_CHOICES..=MOST_CHOICES).contains(&config.k)
        && is_enough(config.n, config.t, config.k + 1)
}

// Under the others, up to the last: whether k is 0, and n at least 3t + 1.
#[tactic(auto, unfolding(crate::specs::Configs::plain_sound))]
fn plain_sound(config: Config) -> bool
    requires { 1 ≤ config.n }
    ensures { result ≡ plain_sound config }
{
    config.policy <= LAST_POLICY && config.k == 0 && is_enough(config.n, config.t, 3)
}

// Whether n is at least share × t + 1, tested by a division, which no t wraps.
fn is_enough(n: u64, t: u64, share: u64) -> bool
    requires le_n { 1 ≤ n }
    requires le_share { 1 ≤ share }
    ensures { result ≡ leb (share * t + 1) n }
{
    t <= (n - 1) / share
}
