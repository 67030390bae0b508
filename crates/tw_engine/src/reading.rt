//! What a job reads: the bytes of a file, and the network that they mean.

ghost use Rattle.std.specs.Prelude.{◌≡◌, ◌⊎◌, IfOk, IfErr, IfSome, None, Ok};
ghost use Rattle.serde_json.specs.View.{view};
ghost use Rattle.tw_file_network.specs.Meaning.{json_of};
ghost use Rattle.tw_file_network.specs.TreeMeaning.{IsMeaning};
ghost use Rattle.tw_vtime.specs.declared.refusal.Refusal.TheVariants as refusal;
ghost use Rattle.tw_engine.specs.Runs.{HasNoNetwork};
ghost use Rattle.tw_engine.specs.declared.failed.Failed.TheVariants as failed;

use crate::failed::Failed;
use serde_json::Value;
use std::alloc::Global;
use std::io::{ErrorKind, Read};
use tw_any_model::AnyModel;
use tw_file_network::{json_of, network_of_any_file, network_of_value};
use tw_network::Network;
use tw_vtime::Refusal;

/// A network, and the end tick up to which it runs.
#[derive(Clone, Copy)]
pub(crate) struct Run<'a> {
    pub(crate) network: &'a Network<AnyModel>,
    pub(crate) until: u64,
}

/// All that a reader has left: the bytes of a network's file for a job, or those of a script.
///
/// Refused where it fails (19), or for want of memory (4).
pub fn read_all<N: Read>(alloc: Global, file: &mut N) -> Result<Vec<u8>, Failed>
    ensures ok { IfOk result (λ bytes. IfSome (N.remaining file.old) (λ all. bytes.items ≡ all)) }
    ensures err { IfErr result
        (λ e. (e ≡ failed.Bad refusal.Unreadable None) ⊎ (e ≡ failed.Want refusal.OutOfMemory)) }
{
    let mut bytes = Vec::new(alloc);
    match file.read_to_end(&mut bytes) {
        Ok(_) => Ok(bytes),
        Err(error) => Err(if error.kind() == ErrorKind::OutOfMemory {
            Failed::Want(Refusal::OutOfMemory)
        } else {
            Failed::from(Refusal::Unreadable)
        }),
    }
}

/// The network that a file's bytes mean.
///
/// Refused as the file is (5 to 9, 11, 17, 18, 20, 21), or for want of memory (4).
pub(crate) fn network_in(alloc: Global, bytes: &[u8]) -> Result<Network<AnyModel>, Failed>
    ensures ok { IfOk result (IsMeaning bytes.now) }
    ensures err { IfErr result (HasNoNetwork bytes.now) }
{
    match network_of_any_file(alloc, bytes) {
        Ok(network) => Ok(network),
        Err(refused) => Err(Failed::from(Refusal::from(refused))),
    }
}

/// A network's file that was read: its JSON value, and the network that this means.
#[derive(Drop)]
pub(crate) struct NetworkFile {
    pub(crate) value: Value,
    pub(crate) network: Network<AnyModel>,
}

/// The file of these bytes.
///
/// Refused as the file is (5 to 9, 11, 17, 18, 20, 21), or for want of memory (4).
pub(crate) fn file_in(alloc: Global, bytes: &[u8]) -> Result<NetworkFile, Failed>
    ensures value { IfOk result (λ file. json_of bytes.now ≡ Ok (view file.value)) }
    ensures network { IfOk result (λ file. IsMeaning bytes.now file.network) }
    ensures err { IfErr result (HasNoNetwork bytes.now) }
{
    let value = match json_of(alloc, bytes) {
        Ok(value) => value,
        Err(refused) => return Err(Failed::from(Refusal::from(refused))),
    };
    match network_of_value(alloc, &value) {
        Ok(network) => Ok(NetworkFile { value, network }),
        Err(refused) => Err(Failed::from(Refusal::from(refused))),
    }
}
