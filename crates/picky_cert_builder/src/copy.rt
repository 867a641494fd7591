//! A request, copied.

ghost use Rattle.std.specs.Prelude.{◌≡◌, IfOk};

use crate::builder::SshCertificateBuilder;
use picky_wire::{NoMemory, TryClone, both};
use std::alloc::Global;

impl TryClone for SshCertificateBuilder {
    fn try_clone(&self, alloc: Global) -> Result<SshCertificateBuilder, NoMemory> {
        let key = where_set(alloc, &self.public_key);
        let subject = both(key, where_set(alloc, &self.key_id));
        let principals = where_set(alloc, &self.valid_principals);
        let options = where_set(alloc, &self.critical_options);
        let grants = both(options, where_set(alloc, &self.extensions));
        let issuer = where_set(alloc, &self.issuer);
        let rest = both(issuer, where_set(alloc, &self.comment));
        let ((subject, valid_principals), (grants, rest)) = both(
            both(subject, principals),
            both(grants, rest),
        )?;
        Ok(SshCertificateBuilder {
            cert_key_type: self.cert_key_type,
            public_key: subject.0,
            serial: self.serial,
            cert_type: self.cert_type,
            key_id: subject.1,
            valid_principals,
            valid_after: self.valid_after,
            valid_before: self.valid_before,
            critical_options: grants.0,
            extensions: grants.1,
            issuer: rest.0,
            signature_algo: self.signature_algo,
            comment: rest.1,
        })
    }
}

/// A copy of a field, where it is set. Refuses: `NoMemory`.
fn where_set<T: TryClone>(alloc: Global, field: &Option<T>) -> Result<Option<T>, NoMemory>
    ensures { IfOk result (λ copy. copy ≡ field.now) }
{
    match field {
        Some(value) => {
            let copy = value.try_clone(alloc)?;
            Ok(Some(copy))
        }
        None => Ok(None),
    }
}
