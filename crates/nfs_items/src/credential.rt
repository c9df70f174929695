//! The body of an AUTH_SYS credential.

ghost use Rattle.std.specs.Prelude.{◌≡◌, option_map};
ghost use Rattle.xdr.specs.Item.{array, word};
ghost use Rattle.xdr.specs.Reading.{Gives};
ghost use Rattle.nfs_items.specs.Credentials.{authsys_parms, caller_in};
ghost use Rattle.nfs_items.specs.CredentialRead.{parameters_value};
ghost use Rattle.nfs_items.specs.CallerOf.{caller_of};

use crate::who::{Groups, MAX_GROUPS, Who};
use xdr::{Reader, XdrFault};

/// The greatest length of a machine's name in bytes (RFC 5531, appendix A).
const MAX_MACHINE_NAME: u32 = 255;

/// The parameters of a credential (RFC 5531, appendix A, authsys_parms).
#[derive(Drop)]
struct Parameters<'a> {
    stamp: u32,
    machine_name: &'a [u8],
    uid: u32,
    gid: u32,
    gids: Groups,
}

/// The caller that the body of an AUTH_SYS credential says (RFC 5531, appendix A), or none where the body
/// isn't just the spelling of a stamp, a machine's name of at most 255 bytes, a uid, a gid and at most 16
/// further groups.
#[tactic(auto, unfolding(xdr::specs::Texts::Text::text_at))]
pub fn read_credential(body: &[u8]) -> Option<Who<'_>>
    ensures { option_map caller_of result ≡ caller_in body.now }
{
    let mut reader = Reader::new(body);
    let Ok(parameters) = read_parameters(&mut reader) else {
        return None;
    };
    if !reader.rest().is_empty() {
        return None;
    }
    Some(Who {
        uid: parameters.uid,
        gid: parameters.gid,
        gids: parameters.gids,
        machine_name: Some(parameters.machine_name),
    })
}

fn read_parameters<'a>(reader: &mut Reader<'a>) -> Result<Parameters<'a>, XdrFault>
    ensures { Gives authsys_parms parameters_value reader.old result reader.new }
{
    let stamp = reader.u32()?;
    let machine_name = reader.opaque(MAX_MACHINE_NAME)?;
    let uid = reader.u32()?;
    let gid = reader.u32()?;
    let gids = read_groups(reader)?;
    Ok(Parameters {
        stamp,
        machine_name,
        uid,
        gid,
        gids,
    })
}

fn read_groups(reader: &mut Reader<'_>) -> Result<Groups, XdrFault>
    ensures { Gives (array 16 word) (λ g. g) reader.old result reader.new }
{
    let count = reader.u32()?;
    if count as usize > MAX_GROUPS {
        return Err(XdrFault::TooLong);
    }
    let mut groups = Groups::none();
    for _ in 0..count {
        let group = reader.u32()?;
        groups.push(group);
    }
    Ok(groups)
}
