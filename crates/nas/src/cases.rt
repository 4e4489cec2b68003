// Worked messages and names: what the definitions that the readers are proved equal to say of them.
ghost use Rattle.std.specs.Prelude.{◌≡◌, [], ◌∷◌, Some, None, codes};
ghost use Rattle.nas.specs.declared.name.NetworkKind.TheVariants.{Private, Public};
ghost use Rattle.nas.specs.Cases.{Fails, Named, Refused};

#[tactic(auto, unfolding(crate::specs::Messages::read_message, crate::specs::Names::network_kind, crate::specs::Walk::walk))]
pub fn worked_cases()
    ensures empty { Refused [] 6 2 0 }
    ensures kind { Refused (0x7E ∷ 0x00 ∷ 0x57 ∷ []) 7 2 2 }
    ensures cut { Refused (0x7E ∷ 0x00 ∷ 0x56 ∷ []) 8 2 3 }
    ensures failure { Fails (0x7E ∷ 0x00 ∷ 0x5A ∷ 0x00 ∷ 0x00 ∷ 0x04 ∷ 0x04 ∷ 0x09 ∷ 0x00 ∷ 0x04 ∷ []) 9 6 }
    ensures success { Refused (0x7E ∷ 0x00 ∷ 0x5A ∷ 0x00 ∷ 0x00 ∷ 0x04 ∷ 0x03 ∷ 0x09 ∷ 0x00 ∷ 0x04 ∷ []) 12 2 10 }
    ensures mobile { Named (codes "5G:mnc015.mcc234.3gppnetwork.org") (Some Public) 0 }
    ensures alone { Named (codes "5G:mnc015.mcc234.3gppnetwork.org:123456ABCDE") (Some Private) 0 }
    ensures digits { Named (codes "5G:mnc15.mcc234.3gppnetwork.org") None 2 }
    ensures letter { Named (codes "5G:mnc015.mcc234.3gppnetwork.org:123456ABCDe") None 2 }
{}
