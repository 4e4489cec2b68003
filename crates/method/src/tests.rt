// That a caller can copy what holds bounded bytes, keep it in an array, and hand it on beside a reference. The borrow checker
// follows a type with a model less far, and would refuse these functions.
use crate::subscription::Subscription;
use keys::Octets;

#[derive(Clone, Copy)]
struct Named<'a> {
    name: Octets<4>,
    text: &'a [u8],
}

#[derive(Clone, Copy)]
struct TooLong;

fn most(subscription: Subscription) -> u8 {
    subscription.most
}

fn with_name<'a>(text: &'a [u8]) -> Result<Named<'a>, TooLong> {
    match Octets::new(text) {
        Some(name) => Ok(Named { name, text }),
        None => Err(TooLong),
    }
}

fn text_of<'a>(text: &'a [u8]) -> Result<&'a [u8], TooLong> {
    let named = with_name(text)?;
    Ok(named.text)
}

#[test]
fn copies_a_subscription(rt: HostRuntime) {
    let supi = Octets::new(b"234150999999999").unwrap();
    let subscription = Subscription {
        supi,
        network: Octets::new(b"5G:mnc015.mcc234.3gppnetwork.org").unwrap(),
        most: 3,
    };
    assert_eq!(rt; most(subscription), 3);
    assert_eq!(rt; most(subscription), 3);
    let both = [supi, supi];
    assert_eq!(rt; both[0].as_slice(), both[1].as_slice());
}

#[test]
fn hands_on_bytes_beside_a_reference(rt: HostRuntime) {
    assert!(rt; matches!(text_of(b"abba"), Ok(b"abba")));
    assert!(rt; matches!(text_of(b"abbas"), Err(TooLong)));
}
