//! What the relations between texts, configurations and refusals say of each other.

ghost use Rattle.std.specs.Prelude.{◌≡◌, ◌≤◌, ◌⊎◌, ℕ, List};
ghost use Rattle.nit_config.specs.Terms.{ConfigError, Configuration, IsConfiguration};
ghost use Rattle.nit_config.specs.Terms.{IsConfigurationOf, IsRunConfiguration, MeetsRefusal};
ghost use Rattle.nit_config.specs.Terms.{most_run_height, most_run_width, still_configuration};

/// A text has one configuration at most, and that is within the ranges of the format.
pub fn configuration_is_one()
    ensures one { (bytes : List ℕ) (a b : Configuration) → IsConfigurationOf bytes a
        → IsConfigurationOf bytes b → a ≡ b }
    ensures configured { (bytes : List ℕ) (config : Configuration) → IsConfigurationOf bytes config
        → IsRunConfiguration config }
{}

/// A text meets one refusal at most, and none where it has a configuration.
pub fn refusal_is_one()
    ensures one { (bytes : List ℕ) (a b : ConfigError) → MeetsRefusal bytes a → MeetsRefusal bytes b
        → a ≡ b }
    ensures none { (bytes : List ℕ) (config : Configuration) (error : ConfigError)
        → IsConfigurationOf bytes config → MeetsRefusal bytes error → ⊥ }
{}

/// Each text has a configuration or meets a refusal.
pub fn each_text_is_judged()
    ensures { (bytes : List ℕ)
        → ((config : Configuration) × IsConfigurationOf bytes config)
        ⊎ ((error : ConfigError) × MeetsRefusal bytes error) }
{}

/// The configuration of a picture of one client's script is within the ranges where the size of its
/// screen is.
pub fn still_is_configured()
    ensures { (width height : ℕ) → 1 ≤ width → width ≤ most_run_width
        → 1 ≤ height → height ≤ most_run_height
        → IsRunConfiguration (still_configuration width height) }
{}

/// A configuration within the ranges of a run is one that a server can be opened with.
pub fn run_is_configured()
    ensures { (config : Configuration) → IsRunConfiguration config → IsConfiguration config }
{}
