// The fall of a bucket's bound: a word that depends in one bucket comes to it, the bound falls while it depends, and the words that leave go
// one level further. The definition is `settle` of bucket_settle; specs/Settled.antt has its result as the code's type.
// Law: proofs/Run.antt (the words that have left so far, ahead of what is to come, are the whole settlement).
#![tactic(auto)]

ghost use Rattle.std.specs.Prelude.{◌≡◌, None};
ghost use Rattle.bucket.specs.Bucket.{rows, solutions, add};
ghost use Rattle.bucket_settle.specs.Settle.{SoundBucket, threshold_of, at_bound, settle};
ghost use Rattle.bucket_fall.specs.Settled.{settled_of};

use bucket::Bucket;
use bucket_settle::{Entry, Outgoing};
use identifier::threshold;

// A bucket after an add, and the words that left it.
#[derive(Clone, Copy)]
pub struct Settled {
    pub bucket: Bucket,
    pub out: Outgoing,
}

// The bucket under the bound t.
pub(crate) fn at_bound(b: Bucket, t: u64) -> Bucket
    ensures { result ≡ at_bound t b }
{
    Bucket { bound: t, ..b }
}

// The add of k to a bucket that `gone` words have just left. Where none has left, k depends as it did: nothing is tried, and no product is
// formed.
pub(crate) fn tried_again(gone: usize, b: Bucket, k: u64, plan: u64) -> Option<Bucket>
    requires { gone ≡ 0 → add rows k plan b ≡ None }
    ensures { result ≡ add rows k plan b }
{
    if gone == 0 {
        return None;
    }
    b.add(k, plan)
}

// The word k comes to the bucket with its plan, and depends there. While it does, the bound falls by one, and the words whose threshold
// equals the new bound leave, smallest vector first, each withdrawn. If k's threshold is not below the bound, k leaves last.
pub fn fall(b: Bucket, k: u64, plan: u64) -> Settled
    requires { SoundBucket rows solutions b × (add rows k plan b ≡ None) }
    ensures { result ≡ settled_of (settle rows threshold_of (record { word = k; plan = plan }) b.bound b) }
{
    let own = threshold(k);
    let mut bucket = b;
    let mut out = Outgoing::new();
    let mut left: usize = 0; // how many words left the bucket last
    for t in (own..b.bound).rev() {
        if let Some(added) = tried_again(left, bucket, k, plan) {
            return Settled { bucket: added, out };
        }
        let leaving = bucket_settle::leaving(bucket, t);
        let gone = leaving.entries();
        out.extend(gone);
        bucket = at_bound(bucket_settle::withdraw_all(bucket, gone), t);
        left = gone.len();
    }
    out.push(Entry { word: k, plan });
    Settled { bucket, out }
}
