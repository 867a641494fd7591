//! The ciphers of a sealed private key.

ghost use Rattle.std.specs.Prelude.{◌≡◌, ◌≤◌, bytes_eq, length};
ghost use Rattle.picky_wire_base.specs.Table.{find_entry};
ghost use Rattle.picky_sshkey.specs.Cipher.{ciphers, key_len, is_cbc};
ghost use Rattle.picky_sshkey.specs.CipherNames.{cipher_name};

const AES128_CBC: &str = "aes128-cbc";

const AES256_CBC: &str = "aes256-cbc";

const AES128_CTR: &str = "aes128-ctr";

const AES256_CTR: &str = "aes256-ctr";

/// A cipher under which a private key may be sealed.
#[derive(Clone, Copy)]
pub enum Cipher {
    Aes128Cbc,
    Aes256Cbc,
    Aes128Ctr,
    Aes256Ctr,
}

/// Every cipher, in the order in which names are tried.
const CIPHERS: [Cipher; 4] = [
    Cipher::Aes128Cbc,
    Cipher::Aes256Cbc,
    Cipher::Aes128Ctr,
    Cipher::Aes256Ctr,
];

impl Cipher {
    /// Its name.
    #[tactic(auto, unfolding(crate::specs::CipherNames::cipher_name))]
    pub fn name(self) -> &'static str
        ensures name { result.now ≡ cipher_name self }
        ensures short { length result.now ≤ 64 }
    {
        match self {
            Cipher::Aes128Cbc => AES128_CBC,
            Cipher::Aes256Cbc => AES256_CBC,
            Cipher::Aes128Ctr => AES128_CTR,
            Cipher::Aes256Ctr => AES256_CTR,
        }
    }

    /// The cipher with this name, where one has it.
    #[tactic(auto, unfolding(crate::specs::Cipher::ciphers))]
    pub fn of_name(name: &str) -> Option<Cipher>
        ensures { result ≡ find_entry ciphers name.now }
    {
        CIPHERS.iter().copied().find(
            |cipher| -> bool
                ensures { result ≡ bytes_eq name.entry.now (cipher_name cipher.now) }
            { name == cipher.name() },
        )
    }

    /// How many bytes its key has.
    pub fn key_len(self) -> usize
        ensures { result ≡ key_len self }
    {
        match self {
            Cipher::Aes128Cbc | Cipher::Aes128Ctr => 16,
            Cipher::Aes256Cbc | Cipher::Aes256Ctr => 32,
        }
    }

    /// Whether it chains whole blocks.
    pub fn is_cbc(self) -> bool
        ensures { result ≡ is_cbc self }
    {
        match self {
            Cipher::Aes128Cbc | Cipher::Aes256Cbc => true,
            Cipher::Aes128Ctr | Cipher::Aes256Ctr => false,
        }
    }
}
