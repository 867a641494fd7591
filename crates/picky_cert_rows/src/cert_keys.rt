//! The keys of the certificates, of subjects and of issuers: a line's first two words.

// ssh-keygen -t ed25519 -f ed; of each, cut -d' ' -f1,2 NAME.pub
pub const ED: &str =
    "ssh-ed25519 AAAAC3NzaC1lZDI1NTE5AAAAIDSUV/VQz9IVH3nfMvNGTEs4nxb96VWfmHkRaF2f5HlR";

// ssh-keygen -t rsa -b 1024 -f rsa
pub const RSA: &str =
    "ssh-rsa AAAAB3NzaC1yc2EAAAADAQABAAAAgQCz4WwP3WXyxzf9UuDcNP5fruteRI7LXdFuzsmjQYjNyOe4B0paI2j2N/bVYhHWvA/WoD+o+E2qbF7fyVsUWfOVxv2bm9KLEvPwR7ba8SbouceQeM3YOGzwHrdYxiaZgbiS/PhHecYf0RcIo1cmxVrjZAbuamSeIM4KqbcUItCpjQ==";

// ssh-keygen -t ecdsa -b 256 -f p256
pub const P256: &str =
    "ecdsa-sha2-nistp256 AAAAE2VjZHNhLXNoYTItbmlzdHAyNTYAAAAIbmlzdHAyNTYAAABBBPRW0knOeRjCOxdH2kWA/3GkjVdwiuaVP/W8dZHXeCeNDMyQ8jdpIlM1ThL1zBTVMnS2XoGDkta+nzaLIauUzvA=";

// ssh-keygen -t ecdsa -b 384 -f p384
pub const P384: &str =
    "ecdsa-sha2-nistp384 AAAAE2VjZHNhLXNoYTItbmlzdHAzODQAAAAIbmlzdHAzODQAAABhBKoWsYlfdOo2NbM2PBUYJJLp7GdJ3VEHgDA9Yc/WAOHbZODRlL243VfdxUKJGFKQ2UPsNVIRufPJ/uDqPIXiAV3N+4bNZLNIOD2XdHue5xMvVoBvuVpWxRm1CKnGhmk0Eg==";

// ssh-keygen -t ecdsa -b 521 -f p521
pub const P521: &str =
    "ecdsa-sha2-nistp521 AAAAE2VjZHNhLXNoYTItbmlzdHA1MjEAAAAIbmlzdHA1MjEAAACFBAFclI/7c1vjHdXbPUKXnPf8aZTQU9jpu1H8k72b+bYqYhcY1gWojPU2tSERS7s427L3UC0sDDy5+RXcnXOxdQVZjgDFiDvr6aHS7YlsEJFKDsex+4M74/0nGDcjD6p5hwWa3dhWQtaUm7RGBvKlmy3Ra0kX5Jl6OuQS+wZI1HQZxJHtjQ==";

// OpenSSH's PROTOCOL.u2f, with a point of python3's cryptography, and `ssh:`
pub const SK_P256: &str =
    "sk-ecdsa-sha2-nistp256@openssh.com AAAAInNrLWVjZHNhLXNoYTItbmlzdHAyNTZAb3BlbnNzaC5jb20AAAAIbmlzdHAyNTYAAABBBIXhgRrL/+6rpUfr1ayLNM/ak+f8qNIPSM2aQSB1lVDvNICxT/aMPpPaZQucwv8j8PlNYbBN+WSeLhL/L8fOFi4AAAAEc3NoOg==";

// the same, with an Ed25519 key and `ssh:laptop`
pub const SK_ED: &str =
    "sk-ssh-ed25519@openssh.com AAAAGnNrLXNzaC1lZDI1NTE5QG9wZW5zc2guY29tAAAAIIg9Usy8A/jIZW7J5/gHWUsU9044yU/7idEIs4TaSkxXAAAACnNzaDpsYXB0b3A=";

// ssh-keygen -t ed25519 -f ca_ed
pub const CA_ED: &str =
    "ssh-ed25519 AAAAC3NzaC1lZDI1NTE5AAAAIBL4LR5IUU1HTCkCgFlhQDJJ6YwIJdFegG2QUBcvz22x";

// ssh-keygen -t rsa -b 1024 -f ca_rsa
pub const CA_RSA: &str =
    "ssh-rsa AAAAB3NzaC1yc2EAAAADAQABAAAAgQDdLMPYKxHpPovbTjAupZhr7KqPq77bBgMlBzvel+KwMPS1QcYxcVkkG4Wz9ZKQzIDwM9sr75xuYBQMocu4UYPwh5e820KnOlb4jaen/I4gOQEzUjGvEjSxi2Sz8b0YVMY1/slANumgKRxV9ZL1M2KRNl38GAojCFk/W5jEh0PrZQ==";

// ssh-keygen -t ecdsa -b 256 -f ca_p256
pub const CA_P256: &str =
    "ecdsa-sha2-nistp256 AAAAE2VjZHNhLXNoYTItbmlzdHAyNTYAAAAIbmlzdHAyNTYAAABBBOIMFXdLGT2iGxOmQdZS1T865rmwsykw9Hnf8mI26lRijuSsXy8n1lnCdRF1RsjkTCbWPdZoqi1nN9PpFhzpjno=";

// ssh-keygen -t ecdsa -b 384 -f ca_p384
pub const CA_P384: &str =
    "ecdsa-sha2-nistp384 AAAAE2VjZHNhLXNoYTItbmlzdHAzODQAAAAIbmlzdHAzODQAAABhBFz0rt0efuxsim05s46Ijj3zFIJqpaJ5A9IsnBnyILleoF4RIdHPQlJnS3XBFU1sAMgUD6sqNnH0HDusAi+h2KII046m5X9kZfGTaiaUSDHW2nMiFhMisvlCbVkdJi+fZA==";

// ssh-keygen -t ecdsa -b 521 -f ca_p521
pub const CA_P521: &str =
    "ecdsa-sha2-nistp521 AAAAE2VjZHNhLXNoYTItbmlzdHA1MjEAAAAIbmlzdHA1MjEAAACFBABvP6PcRlvjsWNVGxERjva+2JdYruTM8YHK2YWHbjO48CuVIGDZTt+mx08SUslMaqVvQvmFTyPa5ArW/ClENqBEHQGmDr1yZJjVyAxfKMSZJyIWXZlL/5r3QUque6Hwmj6c5QJqbidoR9ImM+D85dx1uSycqtMRUPrYUMGdgTB3Eb1LdA==";

// as SK_P256
pub const CA_SK_P256: &str =
    "sk-ecdsa-sha2-nistp256@openssh.com AAAAInNrLWVjZHNhLXNoYTItbmlzdHAyNTZAb3BlbnNzaC5jb20AAAAIbmlzdHAyNTYAAABBBCBlm1TO4PcHOeaGclAsGcJdcF6bb1aaGlRNXLCxwo0R+0pN2C0BC3YoBny8ASfsicJj/QbdiXusadBxf5G4sm4AAAAEc3NoOg==";

// as SK_ED, with `ssh:`
pub const CA_SK_ED: &str =
    "sk-ssh-ed25519@openssh.com AAAAGnNrLXNzaC1lZDI1NTE5QG9wZW5zc2guY29tAAAAICuICDzLdyJpyyujHDNzVM+mlfyedSu1ZTeElUqC2Hr+AAAABHNzaDo=";
