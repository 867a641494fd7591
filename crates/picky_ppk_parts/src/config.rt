//! How a file of version 3 is sealed.

ghost use Rattle.std.specs.Prelude.{◌≡◌, IfOk, IsOk};
ghost use Rattle.picky_ppk_parts.specs.Config.{default_config};
ghost use Rattle.picky_ppk_parts.specs.declared.config.PpkEncryptionConfig.{PpkEncryptionConfig as Config};

use crate::names::Argon2Flavour;
use picky_wire::{NoMemory, TryClone};
use std::alloc::Global;
use std::marker::Model;

/// What Argon2 is run with where a file of version 3 is sealed, and how long its salt is.
#[derive(Clone, Copy, Debug, PartialEq, Eq)]
pub struct PpkEncryptionConfig {
    pub argon2_flavour: Argon2Flavour,
    /// In KiB.
    pub argon2_memory: u32,
    pub argon2_passes: u32,
    pub argon2_parallelism: u32,
    /// In bytes.
    pub argon2_salt_size: u32,
}

impl PpkEncryptionConfig {
    /// A builder that starts from the default.
    pub fn builder() -> PpkEncryptionConfigBuilder
        ensures { result ≡ default_config }
    {
        PpkEncryptionConfigBuilder {
            config: PpkEncryptionConfig::default(),
        }
    }
}

impl Default for PpkEncryptionConfig {
    ghost use Rattle.std.specs.Prelude.{◌≡◌};
    ghost use Rattle.picky_ppk_parts.specs.Config.{default_config};

    ghost is_default = { λ config. config ≡ default_config };

    fn default() -> PpkEncryptionConfig {
        PpkEncryptionConfig {
            argon2_flavour: Argon2Flavour::Argon2id,
            argon2_memory: 8192,
            argon2_passes: 34,
            argon2_parallelism: 1,
            argon2_salt_size: 16,
        }
    }
}

impl TryClone for PpkEncryptionConfig {
    fn try_clone(&self, _alloc: Global) -> Result<PpkEncryptionConfig, NoMemory>
        ensures ok { IfOk result (λ copy. copy ≡ self.now) }
        ensures always { IsOk result }
    {
        Ok(*self)
    }
}

/// Makes a configuration, one field after another.
#[derive(Clone, Copy, Debug, PartialEq, Eq)]
pub struct PpkEncryptionConfigBuilder {
    config: PpkEncryptionConfig,
}

impl Model for PpkEncryptionConfigBuilder {
    ghost Value = { Config };

    ghost view = { λ builder. builder.config };

    ghost inverse = { λ config. record { config = config } };
}

impl PpkEncryptionConfigBuilder {
    /// Sets the flavour.
    pub fn argon2_flavour(self, argon2_flavour: Argon2Flavour) -> PpkEncryptionConfigBuilder
        ensures { result ≡ record self { argon2_flavour = argon2_flavour } }
    {
        let mut config = self.config;
        config.argon2_flavour = argon2_flavour;
        PpkEncryptionConfigBuilder { config }
    }

    /// Sets the memory, in KiB.
    pub fn argon2_memory(self, argon2_memory: u32) -> PpkEncryptionConfigBuilder
        ensures { result ≡ record self { argon2_memory = argon2_memory } }
    {
        let mut config = self.config;
        config.argon2_memory = argon2_memory;
        PpkEncryptionConfigBuilder { config }
    }

    /// Sets the number of passes.
    pub fn argon2_passes(self, argon2_passes: u32) -> PpkEncryptionConfigBuilder
        ensures { result ≡ record self { argon2_passes = argon2_passes } }
    {
        let mut config = self.config;
        config.argon2_passes = argon2_passes;
        PpkEncryptionConfigBuilder { config }
    }

    /// Sets the number of lanes.
    pub fn argon2_parallelism(self, argon2_parallelism: u32) -> PpkEncryptionConfigBuilder
        ensures { result ≡ record self { argon2_parallelism = argon2_parallelism } }
    {
        let mut config = self.config;
        config.argon2_parallelism = argon2_parallelism;
        PpkEncryptionConfigBuilder { config }
    }

    /// Sets the length of the salt, in bytes.
    pub fn argon2_salt_size(self, argon2_salt_size: u32) -> PpkEncryptionConfigBuilder
        ensures { result ≡ record self { argon2_salt_size = argon2_salt_size } }
    {
        let mut config = self.config;
        config.argon2_salt_size = argon2_salt_size;
        PpkEncryptionConfigBuilder { config }
    }

    /// The configuration.
    pub fn build(self) -> PpkEncryptionConfig
        ensures { result ≡ self }
    {
        self.config
    }
}

impl TryClone for PpkEncryptionConfigBuilder {
    fn try_clone(&self, _alloc: Global) -> Result<PpkEncryptionConfigBuilder, NoMemory>
        ensures ok { IfOk result (λ copy. copy ≡ self.now) }
        ensures always { IsOk result }
    {
        Ok(*self)
    }
}
