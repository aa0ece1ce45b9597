//! Reference rows: brokers, customers, accounts, and the costs of trades.
#![tactic(auto, unfolding(crate::proofs::OnLiterals::model_on_literals))]

ghost use Rattle.std.specs.Prelude.{◌≡◌, ◌∷◌, [], ℕ, map, codes};
ghost use Rattle.brk_model.specs.Base.{empty_base};
ghost use Rattle.brk_model_examples.specs.Batches.{base_after_batch, BatchOutputsLines, base_without_stored_replies};
ghost use Rattle.brk_model_examples.specs.Setting.{setting_base, setting_rows};
ghost use Rattle.brk_model_examples.specs.Extremes.{setting_with_ten_accounts};

/// Shows the answers to a broker, a customer and two accounts. The second account is refused with
/// `NoCustomer` (2), because its customer does not exist, and its key is not recorded. The output
/// of a batch without rows is only its end line.
pub fn refused_reference_row_records_no_key()
    ensures rows { BatchOutputsLines empty_base
        (codes "broker,1,Bo"
        ∷ codes "customer,10,1,T10,Lee,Ann"
        ∷ codes "account,100,10,1,Main,1,10000.00"
        ∷ codes "account,101,11,1,Side,0,0.00" ∷ [])
        (codes "1,ok,1709251200000"
        ∷ codes "2,ok,1709251200001"
        ∷ codes "3,ok,1709251200002"
        ∷ codes "4,no,2"
        ∷ codes "end,3,0,1" ∷ []) }
    ensures recorded_keys { map {B = ℕ} (λ k. k.key.n) (base_after_batch empty_base
        (codes "broker,1,Bo"
        ∷ codes "customer,10,1,T10,Lee,Ann"
        ∷ codes "account,100,10,1,Main,1,10000.00"
        ∷ codes "account,101,11,1,Side,0,0.00" ∷ [])).kept ≡ 1 ∷ 2 ∷ 3 ∷ [] }
    ensures empty_batch { BatchOutputsLines empty_base
        []
        (codes "end,0,0,0" ∷ []) }
{}

/// Shows that all sixteen rows `setting_rows` are accepted on the empty base, and that the base
/// after them, without stored replies, is `setting_base`.
pub fn setting_rows_result_in_setting_base()
    ensures lines { BatchOutputsLines empty_base setting_rows
        (codes "1,ok,1709251200000"
        ∷ codes "2,ok,1709251200001"
        ∷ codes "3,ok,1709251200002"
        ∷ codes "4,ok,1709251200003"
        ∷ codes "5,ok,1709251200004"
        ∷ codes "6,ok,1709251200005"
        ∷ codes "7,ok,1709251200006"
        ∷ codes "8,ok,1709251200007"
        ∷ codes "9,ok,1709251200008"
        ∷ codes "10,ok,1709251200009"
        ∷ codes "11,ok,1709251200010"
        ∷ codes "12,ok,1709251200011"
        ∷ codes "13,ok,1709251200012"
        ∷ codes "14,ok,1709251200013"
        ∷ codes "15,ok,1709251200014"
        ∷ codes "16,ok,1709251200015"
        ∷ codes "end,16,0,0" ∷ []) }
    ensures base { base_without_stored_replies (base_after_batch empty_base setting_rows) ≡ setting_base }
{}

/// Shows that one tax rate is accepted, and that ten reference rows that are malformed or fail a
/// check against the base are refused: with `Overlap` (16), `BadQty` (8), `TaxSum` (17), `NoTax`
/// (12), `NoCustomer` (2), `Exists` (15), `BadText` (18, two rows), `BadPrice` (9) and `BadType`
/// (7).
pub fn invalid_reference_rows_are_refused()
    ensures { BatchOutputsLines setting_base
        (codes "band,1,TMB,NYSE,999999,999999,50"
        ∷ codes "band,1,TMB,NYSE,2,1,50"
        ∷ codes "taxrate,2,Fed,80001"
        ∷ codes "custtax,10,2"
        ∷ codes "custtax,10,3"
        ∷ codes "custtax,11,1"
        ∷ codes "customer,11,1,T10,Kay,Kim"
        ∷ codes "permission,100,0002,T12,Lee,Ann"
        ∷ codes "security,XYZ,Xyz,NYSE,Tech,0.00"
        ∷ codes "charge,TMX,1,5.00"
        ∷ codes "charge,TMB,2,10000.01" ∷ [])
        (codes "1,no,16"
        ∷ codes "2,no,8"
        ∷ codes "3,ok,1709251200016"
        ∷ codes "4,no,17"
        ∷ codes "5,no,12"
        ∷ codes "6,no,2"
        ∷ codes "7,no,15"
        ∷ codes "8,no,18"
        ∷ codes "9,no,9"
        ∷ codes "10,no,7"
        ∷ codes "11,no,18"
        ∷ codes "end,1,0,10" ∷ []) }
{}

/// Shows that an eleventh account of a customer is refused with `Range` (14), or with `NoBroker`
/// (3) if its broker does not exist.
pub fn eleventh_account_is_refused()
    ensures { BatchOutputsLines setting_with_ten_accounts
        (codes "account,110,10,1,Main,1,0.00"
        ∷ codes "account,110,10,2,Main,1,0.00" ∷ [])
        (codes "1,no,14,accounts"
        ∷ codes "2,no,3"
        ∷ codes "end,0,0,2" ∷ []) }
{}

/// Shows that eight reference rows are refused with `Exists` (15), because for each of them a
/// record with its primary key exists, and that a new permission is accepted.
pub fn duplicate_reference_rows_are_refused()
    ensures { BatchOutputsLines setting_base
        (codes "broker,1,Bob"
        ∷ codes "customer,10,2,T11,Lee,Ann"
        ∷ codes "account,100,10,1,Main,1,0.00"
        ∷ codes "security,ABC,Acme,NYSE,Tech,10.00"
        ∷ codes "charge,TMB,1,6.00"
        ∷ codes "taxrate,1,Fed,1"
        ∷ codes "custtax,10,1"
        ∷ codes "permission,100,0000,T11,Lee,Ann"
        ∷ codes "permission,100,0001,T11,Kay,Kim" ∷ [])
        (codes "1,no,15"
        ∷ codes "2,no,15"
        ∷ codes "3,no,15"
        ∷ codes "4,no,15"
        ∷ codes "5,no,15"
        ∷ codes "6,no,15"
        ∷ codes "7,no,15"
        ∷ codes "8,ok,1709251200016"
        ∷ codes "9,no,15"
        ∷ codes "end,1,0,8" ∷ []) }
{}
