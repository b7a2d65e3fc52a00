use thiserror::Error;

/// What is wrong with the octets of a router LSA. The first of these counts, in this order.
#[derive(Clone, Copy, Debug, PartialEq, Eq, Error)]
pub enum LsaFault {
    /// Fewer than 24 octets; or the packet ends within the LSA, or its length is less than that of a header.
    #[error("the LSA is cut short")]
    Short = 1,
    /// The checksum is 0, or doesn't fit the octets (RFC 2328 section 12.1.7).
    #[error("the checksum doesn't fit")]
    Checksum = 2,
    /// The links that are counted aren't exactly what the LSA holds.
    #[error("the links don't fill the LSA")]
    Links = 3,
    /// The link state ID isn't the advertising router.
    #[error("the LSA describes another router than its own")]
    Owner = 4,
}
