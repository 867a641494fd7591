//! Certificates of `ssh-keygen`: with their nonces and signatures the same are issued, and kept.

use crate::ledger::ledger_of;
use picky_cert::{SshCertificate, SshSignatureBlob};
use picky_keys::SshPublicKey;
use picky_ledger::{Entry, Ledger, LedgerError, Reply};
use picky_suite::HandedSigner;
use picky_wire::{Bytes, TryClone};
use std::alloc::Global;
use std::mem::ManuallyDrop;
use std::test::Fail;

/// What is asked for of this issuer, at a ledger whose next serial is this, and the certificate's line.
struct IssuedRow {
    name: &'static str,
    issuer: &'static str,
    next: u64,
    line: &'static str,
    certificate: &'static str,
}

// ssh-keygen -q with what stands above a row, of OpenSSH 9.2; the line is that of NAME-cert.pub, and the keys are those of NAME.pub.
// ssh-keygen -q -t ed25519 -N '' -C ed -f ed, and so on ca_ed; with -t rsa -b 1024 rsa and ca_rsa; with -t ecdsa -b 256, 384 and 521
// p256 and so on. The keys on devices are made of ed and p256 by hand, as PROTOCOL.u2f lays them out, with `ssh:`.
static ROWS: [IssuedRow; 6] = [
    // -s ca_ed -I alice -n me,root -V 0x5:0xa -z 1 ed.pub
    IssuedRow {
        name: "Ed25519 by Ed25519",
        issuer: "ssh-ed25519 AAAAC3NzaC1lZDI1NTE5AAAAIGFPQQpugxTubau30D1Zb2hcE28TjVlJHrI1qdaiLVth",
        next: 1,
        line: "alice client me,root 5 10 ssh-ed25519 AAAAC3NzaC1lZDI1NTE5AAAAIMpYd6XaO4Xk6phUupeBcoeUVCQk4g4B8awxvYzME4vS ed",
        certificate: "ssh-ed25519-cert-v01@openssh.com AAAAIHNzaC1lZDI1NTE5LWNlcnQtdjAxQG9wZW5zc2guY29tAAAAIMi4DBG7zxIHDKY0ojPsxJiaIXpJvqbfqUJyxYPaVWc8AAAAIMpYd6XaO4Xk6phUupeBcoeUVCQk4g4B8awxvYzME4vSAAAAAAAAAAEAAAABAAAABWFsaWNlAAAADgAAAAJtZQAAAARyb290AAAAAAAAAAUAAAAAAAAACgAAAAAAAACCAAAAFXBlcm1pdC1YMTEtZm9yd2FyZGluZwAAAAAAAAAXcGVybWl0LWFnZW50LWZvcndhcmRpbmcAAAAAAAAAFnBlcm1pdC1wb3J0LWZvcndhcmRpbmcAAAAAAAAACnBlcm1pdC1wdHkAAAAAAAAADnBlcm1pdC11c2VyLXJjAAAAAAAAAAAAAAAzAAAAC3NzaC1lZDI1NTE5AAAAIGFPQQpugxTubau30D1Zb2hcE28TjVlJHrI1qdaiLVthAAAAUwAAAAtzc2gtZWQyNTUxOQAAAEBhzbIImUNCyaPdk5NQTK/OmBcHRoSNaj/K1OBU1sljyBADMuWxZ3nqfjlu9e8NoDzXYdT/5vRY53++IuJVyX0B ed",
    },
    // -s ca_p256 -h -I web1 -n web,web.example.org -z 2 rsa.pub
    IssuedRow {
        name: "RSA by NIST P-256",
        issuer: "ecdsa-sha2-nistp256 AAAAE2VjZHNhLXNoYTItbmlzdHAyNTYAAAAIbmlzdHAyNTYAAABBBPRrt1kJo+VwT77E1hrXmK9AzIEI5nVHOch5O+UpAHgb+oSguKtqalUcyplsvuGpDMyD4wHZhoDYnrURG41b/54=",
        next: 2,
        line: "web1 host web,web.example.org 0 18446744073709551615 ssh-rsa AAAAB3NzaC1yc2EAAAADAQABAAAAgQCrRU1OxRFziOyYIVC01dksCs/Fb54c82DNQEh3OdQ9Icp82JcoAxbL2AQ3yXx56wtpSzXndfNfDVy4Kcxa28l7n8B3MohwKwM6GBZKXBwgvpfUoANgoK988oRgbKpP6Jjvs90qmy3sss9RFvRvpOHLGff8SLuBBjVMZAUNRsv2Sw== rsa",
        certificate: "ssh-rsa-cert-v01@openssh.com AAAAHHNzaC1yc2EtY2VydC12MDFAb3BlbnNzaC5jb20AAAAgCeAsMzz2k3/CnpStZF6fsIuQiDJSfd7QmTBqDHHFh7UAAAADAQABAAAAgQCrRU1OxRFziOyYIVC01dksCs/Fb54c82DNQEh3OdQ9Icp82JcoAxbL2AQ3yXx56wtpSzXndfNfDVy4Kcxa28l7n8B3MohwKwM6GBZKXBwgvpfUoANgoK988oRgbKpP6Jjvs90qmy3sss9RFvRvpOHLGff8SLuBBjVMZAUNRsv2SwAAAAAAAAACAAAAAgAAAAR3ZWIxAAAAGgAAAAN3ZWIAAAAPd2ViLmV4YW1wbGUub3JnAAAAAAAAAAD//////////wAAAAAAAAAAAAAAAAAAAGgAAAATZWNkc2Etc2hhMi1uaXN0cDI1NgAAAAhuaXN0cDI1NgAAAEEE9Gu3WQmj5XBPvsTWGteYr0DMgQjmdUc5yHk75SkAeBv6hKC4q2pqVRzKmWy+4akMzIPjAdmGgNietREbjVv/ngAAAGUAAAATZWNkc2Etc2hhMi1uaXN0cDI1NgAAAEoAAAAhAOEYY3bf5q9/VMnbKpUJ8ASMKvkpQNAChdHSYx2r8RIRAAAAIQCV22QgWBVuV+yHgHB6pCNkKLPynnVRQp90rEbpFaI9Cg== rsa",
    },
    // -s ca_p384 -I c,d -z 18446744073709551614 p256.pub
    IssuedRow {
        name: "NIST P-256 by NIST P-384",
        issuer: "ecdsa-sha2-nistp384 AAAAE2VjZHNhLXNoYTItbmlzdHAzODQAAAAIbmlzdHAzODQAAABhBNPiBTiCZj+EsiJXb+cOF0Y8l2Ypcpup+PHWp63UO4I5OvXB71zFfGtnyQaUvkfMeRT/uHSizsIpgHqGmWNu6hR0DFAccqGcEjctF/RH8LkaTCoZ4nHdYdAYIBAyi700iw==",
        next: 18_446_744_073_709_551_614,
        line: "c,d client - 0 18446744073709551615 ecdsa-sha2-nistp256 AAAAE2VjZHNhLXNoYTItbmlzdHAyNTYAAAAIbmlzdHAyNTYAAABBBBGLpA8CfxG3RlGfc2YlOYEhJAvZ8j1/9JtYWq5SH8B3tlxyk5K+zoR2/IbgKiIvdeDRH1PIE951YcJKCknkhRA= p256",
        certificate: "ecdsa-sha2-nistp256-cert-v01@openssh.com AAAAKGVjZHNhLXNoYTItbmlzdHAyNTYtY2VydC12MDFAb3BlbnNzaC5jb20AAAAgNsHx9u5YMMPQKVauy8AN7XrmASV51qvrAObBnhB+Gt0AAAAIbmlzdHAyNTYAAABBBBGLpA8CfxG3RlGfc2YlOYEhJAvZ8j1/9JtYWq5SH8B3tlxyk5K+zoR2/IbgKiIvdeDRH1PIE951YcJKCknkhRD//////////gAAAAEAAAADYyxkAAAAAAAAAAAAAAAA//////////8AAAAAAAAAggAAABVwZXJtaXQtWDExLWZvcndhcmRpbmcAAAAAAAAAF3Blcm1pdC1hZ2VudC1mb3J3YXJkaW5nAAAAAAAAABZwZXJtaXQtcG9ydC1mb3J3YXJkaW5nAAAAAAAAAApwZXJtaXQtcHR5AAAAAAAAAA5wZXJtaXQtdXNlci1yYwAAAAAAAAAAAAAAiAAAABNlY2RzYS1zaGEyLW5pc3RwMzg0AAAACG5pc3RwMzg0AAAAYQTT4gU4gmY/hLIiV2/nDhdGPJdmKXKbqfjx1qet1DuCOTr1we9cxXxrZ8kGlL5HzHkU/7h0os7CKYB6hpljbuoUdAxQHHKhnBI3LRf0R/C5GkwqGeJx3WHQGCAQMou9NIsAAACFAAAAE2VjZHNhLXNoYTItbmlzdHAzODQAAABqAAAAMQCUpWj2LVtF4Of01IOdYMzL3kUkjyKAJgstPsFA4ARsuj2Ak4tlVt6AwOgtoDiV344AAAAxALq0QZFO3utXjmS+Il5r/U9x5tOeocFt0vx66w8GcprricJ+2m7+go9KuRWL+k0K8Q== p256",
    },
    // -s ca_p521 -h -I - -V 0x1:0x2 -z 4294967296 p384.pub
    IssuedRow {
        name: "NIST P-384 by NIST P-521",
        issuer: "ecdsa-sha2-nistp521 AAAAE2VjZHNhLXNoYTItbmlzdHA1MjEAAAAIbmlzdHA1MjEAAACFBAGZKw5TS+HQwuZUBEtv8w7hjmx4l2wFgpR4lXld8rqKV9lTYmv1swFzXeDn2SlsqhUTJ6hTXf/tgFPJOzqvyEnLLAAdaZp5WObTsahE13YFTjqBVBFmff/ejz/IuVICJTFTTb49ej+tlumDPwVkRBuoEQwmsUctKrOIegWAuzFIOwTuCQ==",
        next: 4_294_967_296,
        line: "- host - 1 2 ecdsa-sha2-nistp384 AAAAE2VjZHNhLXNoYTItbmlzdHAzODQAAAAIbmlzdHAzODQAAABhBM0r6+s8j7/+UyW5CFiHpGE19ISjl6TT9HSp0Tq8JOsxJgAZatxy15uef7ohFKmDVAPxUoqmMcaN6FvrE2ymu2PMC0XkGKWeh379rAV0KwKH0Qc1bAoDER+gJbJ/QRirrA== p384",
        certificate: "ecdsa-sha2-nistp384-cert-v01@openssh.com AAAAKGVjZHNhLXNoYTItbmlzdHAzODQtY2VydC12MDFAb3BlbnNzaC5jb20AAAAgBiEkenPloRpeMpOaSAuWn4Vh094zCSEPvxJSOpbFCG0AAAAIbmlzdHAzODQAAABhBM0r6+s8j7/+UyW5CFiHpGE19ISjl6TT9HSp0Tq8JOsxJgAZatxy15uef7ohFKmDVAPxUoqmMcaN6FvrE2ymu2PMC0XkGKWeh379rAV0KwKH0Qc1bAoDER+gJbJ/QRirrAAAAAEAAAAAAAAAAgAAAAEtAAAAAAAAAAAAAAABAAAAAAAAAAIAAAAAAAAAAAAAAAAAAACsAAAAE2VjZHNhLXNoYTItbmlzdHA1MjEAAAAIbmlzdHA1MjEAAACFBAGZKw5TS+HQwuZUBEtv8w7hjmx4l2wFgpR4lXld8rqKV9lTYmv1swFzXeDn2SlsqhUTJ6hTXf/tgFPJOzqvyEnLLAAdaZp5WObTsahE13YFTjqBVBFmff/ejz/IuVICJTFTTb49ej+tlumDPwVkRBuoEQwmsUctKrOIegWAuzFIOwTuCQAAAKcAAAATZWNkc2Etc2hhMi1uaXN0cDUyMQAAAIwAAABCAeQfR88tNpcAUMI61f6WDKkrp5XmVwQEoh5Wuw0YobQWYqDQrqpa5dDblLjXX2bfHgwAj4/V14ZMH6VpGa7LcsuyAAAAQgGNKtRjs0791w2WoJGsYKfekCDFPpWp2Vuc0gARoPhBcBf3AofX0/2Rn3WJfAFiauYMHgk5Upbw4+nbQabkCmcrRg== p384",
    },
    // -s ca_rsa -I clé -n me -V 0x0:0xa -z 7 sk_ed.pub
    IssuedRow {
        name: "Ed25519 on a device by RSA",
        issuer: "ssh-rsa AAAAB3NzaC1yc2EAAAADAQABAAAAgQDa8fLxRKbjTxQ3RF2Qo7iga5z+nvTi5/RbsVAWAr1Ph3rsR7Zf/AqeSPH0YGKZd6kT1kHxKFhqBEjK8F7As/300c046dYQf62/G5xddQII6X6uWy8NKEu5C8kNyP4pTlfto4eCXYrBsYEUITKub15JiJv8qBhY9LDUq+we1surew==",
        next: 7,
        line: "clé client me 0 10 sk-ssh-ed25519@openssh.com AAAAGnNrLXNzaC1lZDI1NTE5QG9wZW5zc2guY29tAAAAIMpYd6XaO4Xk6phUupeBcoeUVCQk4g4B8awxvYzME4vSAAAABHNzaDo= sk_ed",
        certificate: "sk-ssh-ed25519-cert-v01@openssh.com AAAAI3NrLXNzaC1lZDI1NTE5LWNlcnQtdjAxQG9wZW5zc2guY29tAAAAIMdNt61k736AnOtmXAuO9eygnAFqsRV4jeCd/uRNvKJbAAAAIMpYd6XaO4Xk6phUupeBcoeUVCQk4g4B8awxvYzME4vSAAAABHNzaDoAAAAAAAAABwAAAAEAAAAEY2zDqQAAAAYAAAACbWUAAAAAAAAAAAAAAAAAAAAKAAAAAAAAAIIAAAAVcGVybWl0LVgxMS1mb3J3YXJkaW5nAAAAAAAAABdwZXJtaXQtYWdlbnQtZm9yd2FyZGluZwAAAAAAAAAWcGVybWl0LXBvcnQtZm9yd2FyZGluZwAAAAAAAAAKcGVybWl0LXB0eQAAAAAAAAAOcGVybWl0LXVzZXItcmMAAAAAAAAAAAAAAJcAAAAHc3NoLXJzYQAAAAMBAAEAAACBANrx8vFEpuNPFDdEXZCjuKBrnP6e9OLn9FuxUBYCvU+HeuxHtl/8Cp5I8fRgYpl3qRPWQfEoWGoESMrwXsCz/fTRzTjp1hB/rb8bnF11Agjpfq5bLw0oS7kLyQ3I/ilOV+2jh4JdisGxgRQhMq5vXkmIm/yoGFj0sNSr7B7Wy6t7AAAAlAAAAAxyc2Etc2hhMi01MTIAAACABknmnSgijaofj9S9Ba4hDvpzgPpsmMWMmY7lcWXNIADmz+28A3wlK7h+mx6eoNDgeItl3FNNDIf4p4WZssWI4Ykk2EGERzuQV24Lwu0qJViZNc8qUbRSHkdE/J35BKX+sT1AYOSMCP46DXSo59JSXhJnpMb9z4frTDaAu6sogPE= sk_ed",
    },
    // -s ca_ed -I 9 -n %u -z 9223372036854775808 sk_p256.pub
    IssuedRow {
        name: "NIST P-256 on a device by Ed25519",
        issuer: "ssh-ed25519 AAAAC3NzaC1lZDI1NTE5AAAAIGFPQQpugxTubau30D1Zb2hcE28TjVlJHrI1qdaiLVth",
        next: 9_223_372_036_854_775_808,
        line: "9 client %u 0 18446744073709551615 sk-ecdsa-sha2-nistp256@openssh.com AAAAInNrLWVjZHNhLXNoYTItbmlzdHAyNTZAb3BlbnNzaC5jb20AAAAIbmlzdHAyNTYAAABBBBGLpA8CfxG3RlGfc2YlOYEhJAvZ8j1/9JtYWq5SH8B3tlxyk5K+zoR2/IbgKiIvdeDRH1PIE951YcJKCknkhRAAAAAEc3NoOg== sk_p256",
        certificate: "sk-ecdsa-sha2-nistp256-cert-v01@openssh.com AAAAK3NrLWVjZHNhLXNoYTItbmlzdHAyNTYtY2VydC12MDFAb3BlbnNzaC5jb20AAAAgzehf0Uf3hqEUQcqK+c8o04Fi/JftX5ijFQiOs4QWmO4AAAAIbmlzdHAyNTYAAABBBBGLpA8CfxG3RlGfc2YlOYEhJAvZ8j1/9JtYWq5SH8B3tlxyk5K+zoR2/IbgKiIvdeDRH1PIE951YcJKCknkhRAAAAAEc3NoOoAAAAAAAAAAAAAAAQAAAAE5AAAABgAAAAIldQAAAAAAAAAA//////////8AAAAAAAAAggAAABVwZXJtaXQtWDExLWZvcndhcmRpbmcAAAAAAAAAF3Blcm1pdC1hZ2VudC1mb3J3YXJkaW5nAAAAAAAAABZwZXJtaXQtcG9ydC1mb3J3YXJkaW5nAAAAAAAAAApwZXJtaXQtcHR5AAAAAAAAAA5wZXJtaXQtdXNlci1yYwAAAAAAAAAAAAAAMwAAAAtzc2gtZWQyNTUxOQAAACBhT0EKboMU7m2rt9A9WW9oXBNvE41ZSR6yNanWoi1bYQAAAFMAAAALc3NoLWVkMjU1MTkAAABAmhqihrZhRa0l8a++avoaPjYAtjjoqd2E7ejjSNHwAlVCN7yTiu37NkGd974cyFm9EUlVHXvkMYGB7F+44nLZAw== sk_p256",
    },
];

fn nonce_of(certificate: &SshCertificate) -> [u8; 32] {
    let mut nonce = [0; 32];
    let bytes = certificate.nonce.as_slice();
    if bytes.len() == 32 {
        nonce.copy_from_slice(bytes);
    }
    nonce
}

fn signature_of(alloc: Global, certificate: &SshCertificate) -> Result<Option<Bytes>, Fail> {
    match &certificate.signature.blob {
        SshSignatureBlob::Standard(bytes) => Ok(Some(bytes.try_clone(alloc)?)),
        SshSignatureBlob::Sk { .. } => Ok(None),
    }
}

/// The entry has the row's line and certificate, under the serial.
fn is_entry(alloc: Global, entry: &Entry, row: &IssuedRow) -> Result<bool, Fail> {
    let line = ManuallyDrop::new(entry.certificate.to_string(alloc)?);
    let is_line = line.as_str().strip_suffix("\r\n") == Some(row.certificate);
    let (id, _) = row.line.split_once(' ').unwrap_or(("", ""));
    Ok(
        is_line
            && entry.id.as_str() == id
            && entry.serial == row.next
            && entry.request.as_str() == row.line,
    )
}

fn has_entry(alloc: Global, ledger: &Ledger, row: &IssuedRow) -> Result<bool, Fail> {
    match ledger.entries() {
        [entry] => Ok(
            ledger.next_serial() == row.next.saturating_add(1) && is_entry(alloc, entry, row)?,
        ),
        _ => Ok(false),
    }
}

/// The ledger's text is read as that ledger.
fn is_read_back(alloc: Global, ledger: &Ledger, row: &IssuedRow) -> Result<bool, Fail> {
    let text = ManuallyDrop::new(ledger.to_string(alloc)?);
    let again = ManuallyDrop::new(Ledger::from_str(alloc, text.as_str())?);
    has_entry(alloc, &again, row)
}

fn replies(answer: Result<Reply, LedgerError>, wanted: Reply) -> bool {
    let answer = ManuallyDrop::new(answer);
    *answer == Ok(wanted)
}

/// With the nonce and the signature of the certificate it is issued.
fn is_issued(alloc: Global, row: &IssuedRow) -> Result<bool, Fail> {
    let number = ManuallyDrop::new(format!(in alloc; "next {}\n", row.next)?);
    let mut ledger = ledger_of(alloc, number.as_str())?;
    let certificate = ManuallyDrop::new(SshCertificate::from_str(alloc, row.certificate)?);
    let issuer = ManuallyDrop::new(SshPublicKey::from_str(alloc, row.issuer)?);
    let signature = signature_of(alloc, &certificate)?;
    let mut signer = ManuallyDrop::new(HandedSigner::new(signature));
    let nonce = nonce_of(&certificate);
    let answer = ledger.apply(alloc, &issuer, row.line, &nonce, &mut *signer);
    Ok(
        replies(answer, Reply::Issued(row.next))
            && has_entry(alloc, &ledger, row)?
            && is_read_back(alloc, &ledger, row)?,
    )
}

#[test]
fn issues_what_ssh_keygen_does(rt: HostRuntime) -> Result<(), Fail> {
    for row in &ROWS {
        assert!(rt; is_issued(rt.alloc(), row)?, "{}", row.name);
    }
    Ok(())
}
