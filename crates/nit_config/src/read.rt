//! Reading a configuration.

ghost use Rattle.std.specs.Prelude.{◌≡◌, Ok, Err, IfOk};
ghost use Rattle.nit_config.specs.Terms.{ConfigError, Configuration, IsConfigAnswer};
ghost use Rattle.nit_config.specs.Terms.{IsConfigurationOf, IsRunConfiguration, MeetsRefusal};
ghost use Rattle.nit_config.specs.Terms.{UnlessMemory};

use crate::build::configuration;
use crate::config::Config;
use crate::error::ConfigError;
use crate::refusals::refusal;
use nit_rect::NoMemory;
use std::alloc::Global;
use toml::Table;

/// The configuration that the bytes are.
///
/// Each refusal but `NoMemory` comes exactly where it is the first that applies to the whole text,
/// in the order of [`ConfigError`]. A text that no refusal applies to is read, unless memory runs
/// out. The bytes may be of any length: a limit on files is the caller's.
pub fn read_config(alloc: Global, bytes: &[u8]) -> Result<Config, ConfigError>
    // What is read is the bytes' configuration, and a refusal is the one that they meet.
    ensures answer { IsConfigAnswer bytes.now result }
    ensures configured { IfOk result (λ config. IsRunConfiguration config) }

    // And where the bytes are a configuration or meet a refusal, that is the answer, unless memory
    // runs out.
    ensures read { (config : Configuration) → IsConfigurationOf bytes.now config
        → UnlessMemory result (result ≡ Ok config) }
    ensures refused { (error : ConfigError) → MeetsRefusal bytes.now error
        → UnlessMemory result (result ≡ Err error) }
{
    read_table(alloc, bytes)
}

fn read_table(alloc: Global, bytes: &[u8]) -> Result<Config, ConfigError>
    ensures { IsConfigAnswer bytes.now result }
{
    let top = match toml::table_from_slice(alloc, bytes) {
        Ok(top) => top,
        Err(fault) => {
            return Err(if fault.is_memory() {
                ConfigError::NoMemory
            } else {
                ConfigError::Syntax
            });
        }
    };
    let empty = Table::new(alloc);
    if let Some(refused) = refusal(&top, &empty) {
        return Err(refused);
    }
    match configuration(alloc, &top, &empty) {
        Ok(config) => Ok(config),
        Err(NoMemory) => Err(ConfigError::NoMemory),
    }
}
